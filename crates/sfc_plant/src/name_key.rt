//! Keys by which names are found.

use std::alloc::{AllocError, Global};
use std::hash::{Hash, Hasher};
use std::marker::Model;

/// A word as a key. Two keys are equal where the words are one but for the case of their letters (2.1.2). Contracts see
/// the word's bytes.
#[derive(Debug, Drop)]
pub struct NameKey {
    word: Vec<u8>,
}

impl Model for NameKey {
    ghost use Rattle.std.specs.Prelude.{List, ℕ};

    ghost Value = { List ℕ };

    ghost view = { λ key. key.word.items };
}

/// A word that is looked up among keys, whatever the case of its letters. It owns nothing.
#[derive(Clone, Copy, Debug)]
pub struct Word<'a> {
    pub spelling: &'a [u8],
}

ghost use Rattle.std.specs.Prelude.{◌≡◌, IfOk, fold};
ghost use Rattle.std.specs.Str.{str_to_ascii_uppercase};
ghost use Rattle.std.specs.Hash as fed;
ghost use Rattle.sfc_base.specs.Case.{same_word};
ghost use Rattle.sfc_base.proofs.SameWords.{same_word_equiv, same_word_partial_equiv, same_word_input};
ghost use Rattle.std.specs.Cmp.{on_equiv, partial_equiv_from_equiv};

use indexmap::Equivalent;
use sfc_base::case::is_same_word;

impl NameKey {
    /// The key that finds this word's names. The one error is that memory was refused.
    pub fn new(alloc: Global, word: &[u8]) -> Result<NameKey, AllocError>
        ensures { IfOk result (λ key. key ≡ word.now) }
    {
        let word = Vec::from_slice(alloc, word)?;
        Ok(NameKey { word })
    }
}

impl PartialEq for NameKey {
    ghost eq = { same_word };

    ghost laws = { same_word_partial_equiv };

    fn eq(&self, other: &NameKey) -> bool {
        is_same_word(self.word.as_slice(), other.word.as_slice())
    }
}

impl Eq for NameKey {
    ghost laws = { same_word_equiv };
}

// Writes the word's capitals, which are the same for words that differ only in case.
fn hash_capitals<H: Hasher>(word: &[u8], state: &mut H)
    ensures { state.new ≡ fold H.write state.old (fed.slice fed.u8 (str_to_ascii_uppercase word.now)) }
{
    state.write_usize(word.len());
    for byte in word {
        state.write_u8(byte.to_ascii_uppercase());
    }
}

impl Hash for NameKey {
    ghost hash_input = { λ key. fed.slice fed.u8 (str_to_ascii_uppercase key) };

    ghost respects_eq = { same_word_input };

    fn hash<H: Hasher>(&self, state: &mut H) {
        hash_capitals(self.word.as_slice(), state);
    }
}

impl PartialEq for Word<'_> {
    ghost eq = { λ one other. same_word one.spelling.now other.spelling.now };

    ghost laws = { partial_equiv_from_equiv (on_equiv (λ w. w.spelling.now) same_word_equiv) };

    fn eq(&self, other: &Word<'_>) -> bool {
        is_same_word(self.spelling, other.spelling)
    }
}

impl Eq for Word<'_> {
    ghost laws = { on_equiv (λ w. w.spelling.now) same_word_equiv };
}

impl Hash for Word<'_> {
    ghost hash_input = { λ word. fed.slice fed.u8 (str_to_ascii_uppercase word.spelling.now) };

    ghost respects_eq = { λ one other. same_word_input one.spelling.now other.spelling.now };

    fn hash<H: Hasher>(&self, state: &mut H) {
        hash_capitals(self.spelling, state);
    }
}

impl Equivalent<NameKey> for Word<'_> {
    ghost equivalent = { λ word. same_word word.spelling.now };

    ghost respects_hash = { λ word. same_word_input word.spelling.now };

    ghost respects_eq = { λ word. same_word_equiv.congr word.spelling.now };

    fn equivalent(&self, key: &NameKey) -> bool {
        is_same_word(self.spelling, key.word.as_slice())
    }
}
