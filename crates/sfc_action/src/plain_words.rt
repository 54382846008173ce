//! Of 64 actions the inputs without a time.

ghost use Rattle.std.specs.Prelude.{◌≡◌, ◌==◌, ◌||◌, ℕ, cond};
ghost use Rattle.sfc_flags.specs.Words.{has, word_of};
ghost use Rattle.sfc_action.specs.Private.Rows.{plain_in, no_plain};
ghost use Rattle.sfc_action.specs.Private.Marks.{with_plain, both_plain};

use sfc_flags::word::Word;
use sfc_plant::association::Qualifier;

/// Of 64 actions the inputs N, R, S, P, P1 and P0.
#[derive(Clone, Copy)]
pub struct PlainWords {
    pub non_stored: Word,
    pub reset: Word,
    pub set: Word,
    pub pulse: Word,
    pub rising_pulse: Word,
    pub falling_pulse: Word,
}

impl PlainWords {
    /// No action has an input.
    pub fn none() -> PlainWords
        ensures { (a : ℕ) → plain_in result a ≡ no_plain }
    {
        PlainWords {
            non_stored: Word::none(),
            reset: Word::none(),
            set: Word::none(),
            pulse: Word::none(),
            rising_pulse: Word::none(),
            falling_pulse: Word::none(),
        }
    }

    /// The inputs of both, together.
    pub fn or(self, other: PlainWords) -> PlainWords
        ensures { (a : ℕ) → plain_in result a ≡ both_plain (plain_in self a) (plain_in other a) }
    {
        PlainWords {
            non_stored: self.non_stored.or(other.non_stored),
            reset: self.reset.or(other.reset),
            set: self.set.or(other.set),
            pulse: self.pulse.or(other.pulse),
            rising_pulse: self.rising_pulse.or(other.rising_pulse),
            falling_pulse: self.falling_pulse.or(other.falling_pulse),
        }
    }

    /// The action has the input of this qualifier; one with a time is none of these.
    pub fn mark(&mut self, qualifier: Qualifier, action: usize)
        ensures { (a : ℕ) → word_of a ≡ word_of action → plain_in self.new a
            ≡ cond (a == action) (with_plain qualifier (plain_in self.old a)) (plain_in self.old a) }
    {
        match qualifier {
            Qualifier::NonStored => self.non_stored = self.non_stored.plus(action),
            Qualifier::Reset => self.reset = self.reset.plus(action),
            Qualifier::Set => self.set = self.set.plus(action),
            Qualifier::Pulse => self.pulse = self.pulse.plus(action),
            Qualifier::RisingPulse => self.rising_pulse = self.rising_pulse.plus(action),
            Qualifier::FallingPulse => self.falling_pulse = self.falling_pulse.plus(action),
            Qualifier::Timed(_, _) => {}
        }
    }
}
