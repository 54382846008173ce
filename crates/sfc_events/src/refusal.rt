//! Why an event or a command is refused.

ghost use Rattle.std.specs.Prelude.{◌≡◌};
ghost use Rattle.sfc_events.specs.Refusals.{number_of, name_of};

use sfc_base::ids::TaskId;
use std::error::Error;
use std::fmt;

/// Why an event, or a command of the debugger, is refused (our choice). The order in which the reasons are looked for is that of
/// `Resource::apply` and `Debugger::command`.
#[derive(Clone, Copy, Debug, PartialEq, Eq)]
pub enum Refusal {
    /// The instant is below 0 or above 2^62 microseconds.
    InstantRange,
    /// The instant is before that of the latest accepted event.
    ClockBack,
    /// There is no such task.
    UnknownTask,
    /// There is no such program instance.
    UnknownProgram,
    /// There is no such variable.
    UnknownVar,
    /// The value is not of the variable's type.
    ValueType,
    /// The variable is not located at an input.
    NotInput,
    /// The variable is not forced.
    NotForced,
    /// No release of the task waits for a scan. The next one by its interval is at this instant, if there is one.
    NotDue(Option<i64>),
    /// This other task goes first.
    Yield(TaskId),
    /// The debugger has halted the resource: no task is scanned but one at a time.
    Stopped,
    /// The debugger has halted it already.
    NotRunning,
    /// It runs, and is not halted by the debugger.
    NotStopped,
    /// The chart has no such point, or no breakpoint is set there.
    NoSuchPoint,
    /// As many breakpoints are set as may be.
    TooManyPoints,
    /// As many commands were accepted as may be.
    HistoryFull,
    /// The debugger has ended, and accepts nothing more.
    Ended,
    /// There is no such condition, or it is one of another program instance.
    NoSuchCondition,
}

impl Refusal {
    /// The number that stands for it in messages.
    pub fn number(self) -> u8
        ensures { result ≡ number_of self }
    {
        match self {
            Refusal::UnknownVar => 24,
            Refusal::ValueType => 25,
            Refusal::NotInput => 26,
            Refusal::NotForced => 27,
            Refusal::ClockBack => 28,
            Refusal::NotDue(_) => 29,
            Refusal::Yield(_) => 30,
            Refusal::UnknownTask => 31,
            Refusal::UnknownProgram => 32,
            Refusal::InstantRange => 33,
            Refusal::Stopped => 34,
            Refusal::NotRunning => 35,
            Refusal::NotStopped => 36,
            Refusal::NoSuchPoint => 37,
            Refusal::TooManyPoints => 38,
            Refusal::HistoryFull => 39,
            Refusal::Ended => 40,
            Refusal::NoSuchCondition => 42,
        }
    }

    /// The name that stands for it in messages.
    pub fn name(self) -> &'static str
        ensures { result.now ≡ name_of self }
    {
        match self {
            Refusal::UnknownVar => "UnknownVar",
            Refusal::ValueType => "ValueType",
            Refusal::NotInput => "NotInput",
            Refusal::NotForced => "NotForced",
            Refusal::ClockBack => "ClockBack",
            Refusal::NotDue(_) => "NotDue",
            Refusal::Yield(_) => "Yield",
            Refusal::UnknownTask => "UnknownTask",
            Refusal::UnknownProgram => "UnknownProgram",
            Refusal::InstantRange => "InstantRange",
            Refusal::Stopped => "Stopped",
            Refusal::NotRunning => "NotRunning",
            Refusal::NotStopped => "NotStopped",
            Refusal::NoSuchPoint => "NoSuchPoint",
            Refusal::TooManyPoints => "TooManyPoints",
            Refusal::HistoryFull => "HistoryFull",
            Refusal::Ended => "Ended",
            Refusal::NoSuchCondition => "NoSuchCondition",
        }
    }
}

/// `refused`, the number and the name.
impl fmt::Display for Refusal {
    ghost use Rattle.std.specs.Prelude.{Some};
    ghost use Rattle.sfc_events.specs.Refusals.{refusal_text};

    ghost output = { λ refusal. Some (refusal_text refusal) };

    fn fmt<W: fmt::Write>(&self, f: &mut fmt::Formatter<W>) -> fmt::Result {
        let number = self.number();
        let name = self.name();
        write!(f, "refused {number} {name}")
    }
}

impl Error for Refusal {}
