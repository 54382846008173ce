//! Where a walk over a table of flags stands.

use crate::word::Word;

/// A place between the set places of a table: behind it are those that are left of one word, and those of the words behind that one.
#[derive(Clone, Copy)]
pub struct Cursor {
    // the first place of the word that the walk has in hand
    pub(crate) base: usize,
    // those of its flags that the walk has yet to pass
    pub(crate) rest: Word,
}
