//! Of 64 actions the inputs of their blocks in one scan.

ghost use Rattle.std.specs.Prelude.{◌≡◌, ◌==◌, ℕ, cond, true, false};
ghost use Rattle.sfc_flags.specs.Words.{has, word_of};
ghost use Rattle.sfc_action.specs.Private.Rows.{plain_in, inputs_in, stores_in, no_inputs, has_fault};
ghost use Rattle.sfc_action.specs.Private.Marks.{with_time, with_all_plain};
ghost use Rattle.sfc_action.specs.Private.Calling.{called_of};

use crate::plain_words::PlainWords;
use crate::store_words::StoreWords;
use crate::timed_words::TimedWords;
use sfc_base::qualifier::TimedQualifier;
use sfc_flags::word::Word;

/// Of 64 actions the inputs, whether an association that acts has a time, and whether more than one such does.
#[derive(Clone, Copy)]
pub struct InputWords {
    pub plain: PlainWords,
    pub timed: TimedWords,
    pub any_time: Word,
    pub more_times: Word,
}

impl InputWords {
    /// No action has an input.
    pub fn none() -> InputWords
        ensures { (a : ℕ) → inputs_in result a ≡ no_inputs }
    {
        InputWords {
            plain: PlainWords::none(),
            timed: TimedWords::none(),
            any_time: Word::none(),
            more_times: Word::none(),
        }
    }

    /// The actions have these inputs without a time too.
    pub fn join(&mut self, plain: PlainWords)
        ensures { (a : ℕ) → inputs_in self.new a ≡ with_all_plain (plain_in plain a) (inputs_in self.old a) }
    {
        self.plain = self.plain.or(plain);
    }

    /// The action has the input of this qualifier, and a time.
    pub fn mark_timed(&mut self, qualifier: TimedQualifier, action: usize)
        ensures { (a : ℕ) → word_of a ≡ word_of action → inputs_in self.new a
            ≡ cond (a == action) (with_time qualifier (inputs_in self.old a)) (inputs_in self.old a) }
    {
        if self.any_time.get(action) {
            self.more_times = self.more_times.plus(action);
        }
        self.any_time = self.any_time.plus(action);
        self.timed.add(qualifier, action);
    }

    /// Whether none of the actions has a fault, with these flip-flops.
    pub fn are_faultless(self, stores: StoreWords) -> bool
        ensures { result ≡ true → (a : ℕ) → has_fault (inputs_in self a) (stores_in stores a) ≡ false }
    {
        let stored_delayed = self.timed.stored_delayed.and(stores.stored_limited);
        let stored_limited = self.timed.stored_limited.and(stores.stored_delayed);
        self.more_times
            .or(stored_delayed)
            .or(stored_limited)
            .is_none()
    }

    /// The actions with an on-delay that has its input, with these flip-flops.
    pub fn called(self, stores: StoreWords) -> Word
        ensures { (a : ℕ) → has result a ≡ called_of (inputs_in self a) (stores_in stores a) }
    {
        self.timed
            .limited
            .or(self.timed.delayed)
            .or(self.timed.delayed_stored)
            .or(stores.stored_delayed)
            .or(stores.stored_limited)
    }
}
