//! Of 64 actions what is kept from scan to scan, beside Q and whether they were executed.

ghost use Rattle.std.specs.Prelude.{◌≡◌, ℕ};
ghost use Rattle.sfc_action.specs.Private.Rows.{kept_in, nothing_kept};

use crate::store_words::StoreWords;
use sfc_flags::word::Word;

/// Of 64 actions the inputs P, P1 and P0 of the newest scan, and the flip-flops.
#[derive(Clone, Copy)]
pub struct KeptWords {
    pub pulse: Word,
    pub rising_pulse: Word,
    pub falling_pulse: Word,
    pub stores: StoreWords,
    pub delayed_stored: Word,
}

impl KeptWords {
    /// No action has one of them.
    pub fn none() -> KeptWords
        ensures { (a : ℕ) → kept_in result a ≡ nothing_kept }
    {
        KeptWords {
            pulse: Word::none(),
            rising_pulse: Word::none(),
            falling_pulse: Word::none(),
            stores: StoreWords::none(),
            delayed_stored: Word::none(),
        }
    }
}
