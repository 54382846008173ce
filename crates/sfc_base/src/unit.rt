//! The units of durations (B.1.2.3.1).

ghost use Rattle.std.specs.Prelude.{◌≡◌};
ghost use Rattle.sfc_base.specs.Durations as durations;

/// A unit of time.
#[derive(Clone, Copy, Debug, PartialEq, Eq)]
pub enum Unit {
    Day,
    Hour,
    Minute,
    Second,
    Millisecond,
}

impl Unit {
    /// How many microseconds it has.
    pub fn micros(self) -> u64
        ensures { result ≡ durations.micros_of self }
    {
        match self {
            Unit::Day => 86_400_000_000,
            Unit::Hour => 3_600_000_000,
            Unit::Minute => 60_000_000,
            Unit::Second => 1_000_000,
            Unit::Millisecond => 1_000,
        }
    }

    /// How it is spelled, in small letters.
    pub fn spelling(self) -> &'static [u8]
        ensures { result.now ≡ durations.spelling_of self }
    {
        match self {
            Unit::Day => b"d",
            Unit::Hour => b"h",
            Unit::Minute => b"m",
            Unit::Second => b"s",
            Unit::Millisecond => b"ms",
        }
    }
}
