//! Names (2.1.2), in the spelling in which they were written.

use std::alloc::{AllocError, Global};
use std::marker::Model;

/// A name (2.1.2): a letter or an underscore, then letters, digits and underscores, which stand single and inside; no
/// reserved word. Case is kept, and is not significant where names are compared. Contracts see its bytes.
#[derive(Debug, Drop)]
pub struct Name {
    bytes: Vec<u8>,
}

impl Model for Name {
    ghost use Rattle.std.specs.Prelude.{List, ℕ};
    ghost use Rattle.sfc_base.specs.Names.{IsName};

    ghost Value = { List ℕ };

    ghost view = { λ name. name.bytes.items };

    ghost invariant = { λ name. IsName name.bytes.items };
}

ghost use Rattle.std.specs.Prelude.{◌≡◌, IfOk};
ghost use Rattle.std.specs.List.{list_all};
ghost use Rattle.sfc_base.specs.Names as names;
ghost use Rattle.sfc_base.specs.Names.{IsName};
ghost use Rattle.sfc_base.specs.Runs as runs;
ghost use Rattle.sfc_base.specs.declared.run.Alphabet.TheVariants.{Word};

use crate::class::{Class, first_class};
use crate::keyword::keyword_of;
use crate::run::{Alphabet, has};

// Whether a word may begin with a byte of this class.
fn starts_word(class: Class) -> bool
    ensures { result ≡ names.starts_word class }
{
    matches!(class, Class::Letter | Class::Underscore)
}

/// Whether underscores stand single and inside.
#[tactic(auto, unfolding(crate::specs::Names::is_spaced))]
pub fn is_spaced(word: &[u8]) -> bool
    ensures { result ≡ names.is_spaced word.now }
{
    let mut rest = word;
    'all: while let Some((first, after)) = rest.split_first() {
        match after.first() {
            None => return *first != b'_',
            Some(second) => {
                if *first == b'_' && *second == b'_' {
                    return false;
                }
            }
        }
        rest = after;
    }
    true
}

// Whether it is letters, digits and underscores.
fn is_of_word_bytes(word: &[u8]) -> bool
    ensures { result ≡ list_all (runs.has Word) word.now }
{
    word.iter().all(|byte| has(Alphabet::Word, *byte))
}

// Whether it is a letter or an underscore, then letters, digits and underscores, which stand single and inside.
fn is_word(word: &[u8]) -> bool
    ensures { result ≡ names.is_word word.now }
{
    starts_word(first_class(word)) && is_of_word_bytes(word) && is_spaced(word)
}

/// Whether the word is a name (2.1.2): a letter or an underscore, then letters, digits and underscores, which stand
/// single and inside; no reserved word. It takes no memory.
pub fn is_name(word: &[u8]) -> bool
    ensures { result ≡ names.is_name word.now }
{
    is_word(word) && keyword_of(word).is_none()
}

impl Name {
    /// The name with this spelling, which `is_name` tests. The one error is that memory was refused.
    pub fn new(alloc: Global, spelling: &[u8]) -> Result<Name, AllocError>
        requires { IsName spelling.now }
        ensures { IfOk result (λ name. name ≡ spelling.now) }
    {
        let bytes = Vec::from_slice(alloc, spelling)?;
        Ok(Name { bytes })
    }

    /// The bytes as they were written.
    pub fn spelling(&self) -> &[u8]
        ensures value { result.now ≡ self.now }
        ensures named { IsName self.now }
    {
        self.bytes.as_slice()
    }

    /// The same name once more. The one error is that memory was refused.
    pub fn copy(&self, alloc: Global) -> Result<Name, AllocError>
        ensures { IfOk result (λ name. name ≡ self.now) }
    {
        Name::new(alloc, self.spelling())
    }
}
