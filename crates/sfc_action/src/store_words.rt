//! Of 64 actions the flip-flops.

ghost use Rattle.std.specs.Prelude.{◌≡◌, ◌||◌, ◌&&◌, ℕ, not};
ghost use Rattle.sfc_flags.specs.Words.{has};
ghost use Rattle.sfc_action.specs.Private.Rows.{stores_in, inputs_in, no_store, stores_after, stored_after};

use crate::input_words::InputWords;
use sfc_flags::word::Word;

/// Of 64 actions whether the flip-flops by S, SD and SL are set.
#[derive(Clone, Copy)]
pub struct StoreWords {
    pub set: Word,
    pub stored_delayed: Word,
    pub stored_limited: Word,
}

/// The next state of a flip-flop of each action, reset-dominant (2.5.2.3.1).
pub fn store(stored: Word, sets: Word, resets: Word) -> Word
    ensures { (a : ℕ) → has result a ≡ stored_after (has stored a) (has sets a) (has resets a) }
{
    stored.or(sets).without(resets)
}

impl StoreWords {
    /// None is set.
    pub fn none() -> StoreWords
        ensures { (a : ℕ) → stores_in result a ≡ no_store }
    {
        StoreWords {
            set: Word::none(),
            stored_delayed: Word::none(),
            stored_limited: Word::none(),
        }
    }

    /// What these inputs make of them.
    pub fn after(self, inputs: InputWords) -> StoreWords
        ensures { (a : ℕ) → stores_in result a ≡ stores_after (inputs_in inputs a) (stores_in self a) }
    {
        let resets = inputs.plain.reset;
        StoreWords {
            set: store(self.set, inputs.plain.set, resets),
            stored_delayed: store(self.stored_delayed, inputs.timed.stored_delayed, resets),
            stored_limited: store(self.stored_limited, inputs.timed.stored_limited, resets),
        }
    }
}
