//! Names that stand for words.

ghost use Rattle.std.specs.Prelude.{◌≡◌, ◌++◌, OnOk};
ghost use Rattle.sfc_cases.specs.Lines as lines;

use sfc_base::case::is_same_word;
use sfc_base::items::Items;
use sfc_base::run::{Alphabet, has};
use std::alloc::{AllocError, Global};

/// A name, and the word for which it stands.
pub struct Named {
    pub name: Items<u8>,
    pub word: Items<u8>,
}

// By hand, so that a caller that drops one proves one call.
impl Drop for Named {
    fn drop(self) {
        let Named { name: _, word: _ } = self;
    }
}

// The word for which a name stands, or the name itself. Of several names that are the same the last one counts.
fn meaning<'a>(names: &'a [Named], name: &'a [u8]) -> &'a [u8]
    ensures { result.now ≡ lines.meaning names.now name.now }
{
    let mut found = name;
    let mut rest = names;
    'names: while let Some((named, others)) = rest.split_first() {
        if is_same_word(named.name.as_slice(), name) {
            found = named.word.as_slice();
        }
        rest = others;
    }
    found
}

/// Puts the text at the end, in which each name is the word for which it stands: a longest run of letters, digits and underscores. The one
/// error is that memory was refused; then a front of it may stand there.
pub fn put_replaced(
    alloc: Global,
    out: &mut Vec<u8>,
    names: &[Named],
    text: &[u8],
) -> Result<(), AllocError>
    ensures { OnOk result (out.new.items ≡ out.old.items ++ lines.replaced names.now text.now) }
{
    let mut name = Vec::new(alloc);
    let mut rest = text;
    'all: while let Some((byte, after)) = rest.split_first() {
        if has(Alphabet::Word, *byte) {
            name.push(*byte)?;
        } else {
            out.extend_from_slice(meaning(names, &name))?;
            out.push(*byte)?;
            name.clear();
        }
        rest = after;
    }
    out.extend_from_slice(meaning(names, &name))
}
