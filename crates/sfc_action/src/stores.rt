//! Flip-flops of actions.

use crate::store_words::StoreWords;
use std::marker::Model;

/// The actions whose flip-flops by S, SD and SL are set. The flags of 64 actions stand side by side.
pub struct Stores {
    count: usize,
    words: Vec<StoreWords>,
}

// By hand, so that a caller that drops one proves one call.
impl Drop for Stores {
    fn drop(self) {
        let Stores { count: _, words: _ } = self;
    }
}

impl Model for Stores {
    ghost use Rattle.sfc_action.specs.Private.Sets.{StoreSets};

    ghost Value = { StoreSets };

    ghost use Rattle.sfc_action.specs.Private.SetTables.{stores_of, IsStoreTable};

    ghost view = { λ s. stores_of s.count s.words.items };

    ghost invariant = { λ s. IsStoreTable s.count s.words.items };
}

use std::alloc::{AllocError, Global};

impl Stores {
    ghost use Rattle.std.specs.Prelude.{◌≡◌, ◌<◌, ◌≤◌, ℕ, length, IfOk};
    ghost use Rattle.sfc_flags.specs.Flags.{flag};
    ghost use Rattle.sfc_flags.specs.Words.{word_count, word_of, ArePut};
    ghost use Rattle.sfc_action.specs.Private.Storing.{AreStores, no_stores};
    ghost use Rattle.sfc_action.specs.Private.Rows.{stores_in, store_row, no_store};

    /// None is set. The one error is that memory was refused.
    pub fn new(alloc: Global, actions: usize) -> Result<Self, AllocError>
        ensures { IfOk result (λ stores. stores ≡ no_stores actions) }
    {
        let words = vec![in alloc; StoreWords::none(); actions.div_ceil(64)]?;
        Ok(Stores {
            count: actions,
            words,
        })
    }

    /// The flip-flops of the 64 actions of this word.
    pub fn words(&self, number: usize) -> StoreWords
        requires { number < word_count self.now.set }
        ensures { (a : ℕ) → word_of a ≡ number → stores_in result a ≡ store_row self.now a }
    {
        self.words[number]
    }

    /// Gives the 64 actions of this word these flip-flops; past the last action none is set.
    pub fn put(&mut self, number: usize, words: StoreWords)
        requires number { number < word_count self.old.set }
        requires past { (a : ℕ) → word_of a ≡ number → length self.old.set ≤ a → stores_in words a ≡ no_store }
        ensures sized { AreStores (length self.old.set) self.new }
        ensures put { ArePut number (stores_in words) (store_row self.old) (store_row self.new) }
    {
        self.words[number] = words;
    }

    /// Whether the action is stored by SD.
    pub fn has_stored_delayed(&self, action: usize) -> bool
        requires { action < length self.now.set }
        ensures { result ≡ flag self.now.stored_delayed action }
    {
        self.words(action / 64).stored_delayed.get(action)
    }

    /// Whether the action is stored by SL.
    pub fn has_stored_limited(&self, action: usize) -> bool
        requires { action < length self.now.set }
        ensures { result ≡ flag self.now.stored_limited action }
    {
        self.words(action / 64).stored_limited.get(action)
    }
}
