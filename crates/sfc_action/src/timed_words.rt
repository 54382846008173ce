//! Of 64 actions the flags by the qualifiers with a time.

ghost use Rattle.std.specs.Prelude.{◌≡◌, ◌==◌, ℕ, cond};
ghost use Rattle.sfc_flags.specs.Words.{word_of};
ghost use Rattle.sfc_action.specs.Private.Rows.{timed_in, no_times};
ghost use Rattle.sfc_action.specs.Private.Marks.{timed_by, with_timed};

use sfc_base::qualifier::TimedQualifier;
use sfc_flags::word::Word;

/// Of 64 actions a flag for each qualifier with a time.
#[derive(Clone, Copy)]
pub struct TimedWords {
    pub limited: Word,
    pub delayed: Word,
    pub stored_delayed: Word,
    pub delayed_stored: Word,
    pub stored_limited: Word,
}

impl TimedWords {
    /// No flag is set.
    pub fn none() -> TimedWords
        ensures { (a : ℕ) → timed_in result a ≡ no_times }
    {
        TimedWords {
            limited: Word::none(),
            delayed: Word::none(),
            stored_delayed: Word::none(),
            delayed_stored: Word::none(),
            stored_limited: Word::none(),
        }
    }
    /// Puts the action in the set of this qualifier.
    pub fn add(&mut self, qualifier: TimedQualifier, action: usize)
        ensures { (a : ℕ) → word_of a ≡ word_of action → timed_in self.new a
            ≡ cond (a == action) (with_timed qualifier (timed_in self.old a)) (timed_in self.old a) }
    {
        match qualifier {
            TimedQualifier::Limited => self.limited = self.limited.plus(action),
            TimedQualifier::Delayed => self.delayed = self.delayed.plus(action),
            TimedQualifier::StoredDelayed => self.stored_delayed = self.stored_delayed.plus(action),
            TimedQualifier::DelayedStored => self.delayed_stored = self.delayed_stored.plus(action),
            TimedQualifier::StoredLimited => self.stored_limited = self.stored_limited.plus(action),
        }
    }

    /// Whether the action is in the set of this qualifier.
    pub fn has(self, qualifier: TimedQualifier, action: usize) -> bool
        ensures { result ≡ timed_by qualifier (timed_in self action) }
    {
        match qualifier {
            TimedQualifier::Limited => self.limited.get(action),
            TimedQualifier::Delayed => self.delayed.get(action),
            TimedQualifier::StoredDelayed => self.stored_delayed.get(action),
            TimedQualifier::DelayedStored => self.delayed_stored.get(action),
            TimedQualifier::StoredLimited => self.stored_limited.get(action),
        }
    }
}
