//! Values of type TIME (2.3.1).

use std::marker::Model;

/// A value of type TIME: microseconds, from -2^62 to 2^62 (our choice). Contracts see their number.
#[derive(Clone, Copy, Debug, PartialEq, Eq)]
pub struct TimeValue {
    micros: i64,
}

impl Model for TimeValue {
    ghost use Rattle.std.specs.Prelude.{ℤ};
    ghost use Rattle.sfc_base.specs.Durations.{IsTimeValue};

    ghost Value = { ℤ };

    ghost view = { λ t. t.micros };

    ghost invariant = { λ t. IsTimeValue t.micros };

    ghost inverse = { λ z. record { micros = z } };
}

ghost use Rattle.std.specs.Prelude.{◌≡◌};
ghost use Rattle.sfc_base.specs.Durations.{IsTimeValue};

impl TimeValue {
    /// The value of so many microseconds, from -2^62 to 2^62.
    pub fn new(micros: i64) -> TimeValue
        requires { IsTimeValue micros }
        ensures { result ≡ micros }
    {
        TimeValue { micros }
    }

    /// How many microseconds it is, from -2^62 to 2^62.
    pub fn micros(self) -> i64
        ensures value { result ≡ self }
        ensures limited { IsTimeValue self }
    {
        self.micros
    }
}
