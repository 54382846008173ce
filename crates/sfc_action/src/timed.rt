//! Sets of actions by the qualifiers with a time.

use crate::timed_words::TimedWords;
use std::marker::Model;

/// A set of actions for each qualifier with a time. The flags of 64 actions stand side by side.
pub struct Timed {
    count: usize,
    words: Vec<TimedWords>,
}

// By hand, so that a caller that drops one proves one call.
impl Drop for Timed {
    fn drop(self) {
        let Timed { count: _, words: _ } = self;
    }
}

impl Model for Timed {
    ghost use Rattle.sfc_action.specs.Private.Sets.{TimedSets};

    ghost Value = { TimedSets };

    ghost use Rattle.sfc_action.specs.Private.SetTables.{timed_of, IsTimedTable};

    ghost view = { λ t. timed_of t.count t.words.items };

    ghost invariant = { λ t. IsTimedTable t.count t.words.items };
}

use sfc_base::qualifier::TimedQualifier;
use std::alloc::{AllocError, Global};

impl Timed {
    ghost use Rattle.std.specs.Prelude.{◌≡◌, ◌<◌, ◌≤◌, ℕ, length, IfOk};
    ghost use Rattle.sfc_flags.specs.Flags.{flag};
    ghost use Rattle.sfc_flags.specs.Words.{word_count, word_of, ArePut};
    ghost use Rattle.sfc_action.specs.Private.TimedSets.{AreAll, none, with_action, by};
    ghost use Rattle.sfc_action.specs.Private.Rows.{timed_in, timed_row, no_times};

    /// No action is in any. The one error is that memory was refused.
    pub fn new(alloc: Global, actions: usize) -> Result<Self, AllocError>
        ensures { IfOk result (λ sets. sets ≡ none actions) }
    {
        let words = vec![in alloc; TimedWords::none(); actions.div_ceil(64)]?;
        Ok(Timed {
            count: actions,
            words,
        })
    }

    /// The flags of the 64 actions of this word.
    pub fn words(&self, number: usize) -> TimedWords
        requires { number < word_count self.now.limited }
        ensures { (a : ℕ) → word_of a ≡ number → timed_in result a ≡ timed_row self.now a }
    {
        self.words[number]
    }

    /// Gives the 64 actions of this word these flags; past the last action none is set.
    pub fn put(&mut self, number: usize, words: TimedWords)
        requires number { number < word_count self.old.limited }
        requires past { (a : ℕ) → word_of a ≡ number → length self.old.limited ≤ a → timed_in words a ≡ no_times }
        ensures sized { AreAll (length self.old.limited) self.new }
        ensures put { ArePut number (timed_in words) (timed_row self.old) (timed_row self.new) }
    {
        self.words[number] = words;
    }

    /// Puts the action in the set of this qualifier.
    pub fn add(&mut self, qualifier: TimedQualifier, action: usize)
        requires { action < length self.old.limited }
        ensures { self.new ≡ with_action qualifier action self.old }
    {
        self.words[action / 64].add(qualifier, action);
    }

    /// Whether the action is in the set of this qualifier.
    pub fn has(&self, qualifier: TimedQualifier, action: usize) -> bool
        requires { action < length self.now.limited }
        ensures { result ≡ flag (by qualifier self.now) action }
    {
        self.words(action / 64).has(qualifier, action)
    }
}
