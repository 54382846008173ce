//! Which action a step is associated with, and how (2.6.4.3, 2.6.4.4).

ghost use Rattle.std.specs.Prelude.{◌≡◌};
ghost use Rattle.sfc_plant.specs.Letters as letters;

use sfc_base::ids::ActionId;
use sfc_base::items::Items;
use sfc_base::qualifier::TimedQualifier;
use sfc_base::references::Variable;

/// The action of an association.
#[derive(Clone, Copy, Debug, PartialEq, Eq)]
pub enum Target {
    /// One that was declared, with a body.
    Declared(ActionId),
    /// A Boolean action: the BOOL variable itself (2.6.4.1).
    Boolean(Variable),
}

/// The time of an association, in microseconds from -2^62 to 2^62.
#[derive(Clone, Copy, Debug, PartialEq, Eq)]
pub enum Time {
    /// As it was written.
    Literal(i64),
    /// The value of a TIME variable.
    Variable(Variable),
}

/// The qualifier of an association (2.6.4.4).
#[derive(Clone, Copy, Debug, PartialEq, Eq)]
pub enum Qualifier {
    /// N, not stored.
    NonStored,
    /// R, overriding reset.
    Reset,
    /// S, set and stored.
    Set,
    /// P, a pulse.
    Pulse,
    /// P1, a pulse at the rising edge.
    RisingPulse,
    /// P0, a pulse at the falling edge.
    FallingPulse,
    /// One of the qualifiers with a time: L, D, SD, DS or SL.
    Timed(TimedQualifier, Time),
}

// The letters of a qualifier with a time.
fn timed_letters(qualifier: TimedQualifier) -> &'static [u8]
    ensures { result.now ≡ letters.timed_letters qualifier }
{
    match qualifier {
        TimedQualifier::Limited => b"L",
        TimedQualifier::Delayed => b"D",
        TimedQualifier::StoredDelayed => b"SD",
        TimedQualifier::DelayedStored => b"DS",
        TimedQualifier::StoredLimited => b"SL",
    }
}

impl Qualifier {
    /// Its letters: `N`, `R`, `S`, `L`, `D`, `P`, `SD`, `DS`, `SL`, `P1` or `P0` (2.6.4.4). Its time is not among them.
    pub fn letters(self) -> &'static [u8]
        ensures { result.now ≡ letters.letters self }
    {
        match self {
            Qualifier::NonStored => b"N",
            Qualifier::Reset => b"R",
            Qualifier::Set => b"S",
            Qualifier::Pulse => b"P",
            Qualifier::RisingPulse => b"P1",
            Qualifier::FallingPulse => b"P0",
            Qualifier::Timed(timed, _) => timed_letters(timed),
        }
    }
}

/// A line of an action block: which action, how it goes with the step, and its indicator variables.
#[derive(Debug)]
pub struct Association {
    pub target: Target,
    pub qualifier: Qualifier,
    pub indicators: Items<Variable>,
}

// By hand, so that a caller that drops one proves one call.
impl Drop for Association {
    fn drop(self) {
        let Association {
            target: _,
            qualifier: _,
            indicators: _,
        } = self;
    }
}
