//! Where the instants of calls come from.

ghost use Rattle.std.specs.Prelude.{ℤ};

/// What gives a call its raw instant. It is read once in each call, while the lock is held.
pub trait Clock {
    /// What a reading may give, and how it leaves the clock.
    ghost reads: { Self → ℤ → Self → Type 0 };

    /// The raw instant now, in microseconds.
    fn now(&mut self) -> i64
        ensures { reads self.old result self.new };
}
