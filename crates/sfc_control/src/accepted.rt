//! A list of entries that proofs alone read.

ghost use Rattle.std.specs.Prelude.{◌≡◌, List, [], ◌∷◌, ◌++◌};
ghost use Rattle.std.specs.Borrow.{ftrue};
ghost use Rattle.sfc_control.specs.declared.entry.Entry.{Entry};

use crate::entry::Entry;
use std::marker::Model;

/// Every entry since the first, the oldest first, also those that were dropped since. When the program runs it takes no bytes
/// and costs nothing.
///
/// What the list means rests on `new` and `with` being the only functions that make one.
#[derive(Drop)]
pub struct Accepted {
    pub ghost entries: { List Entry },
}

impl Model for Accepted {
    ghost also_owns = { λ _. ftrue };
}

// It owns nothing.
unsafe impl Send for Accepted {}

impl Accepted {
    /// Nothing was accepted.
    pub fn new() -> Accepted
        ensures { result.entries ≡ [] }
    {
        Accepted {}
    }

    // With one entry more.
    fn with(&self, entry: &Entry) -> Accepted
        ensures { result.entries ≡ self.now.entries ++ entry.now ∷ [] }
    {
        Accepted {}
    }

    /// One entry more was accepted.
    pub fn push(&mut self, entry: &Entry)
        ensures { self.new.entries ≡ self.old.entries ++ entry.now ∷ [] }
    {
        *self = self.with(entry);
    }
}
