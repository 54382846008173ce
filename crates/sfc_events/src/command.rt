//! What the debugger is asked, and what it answers.

ghost use Rattle.std.specs.Prelude.{◌≡◌};
ghost use Rattle.sfc_events.specs.Commands as commands;

use crate::event::Event;
use crate::instance_set::InstanceSet;
use sfc_base::ids::{ActionNumber, ProgId, TaskId, TransitionId, VarId};
use sfc_base::references::StepId;
use sfc_base::value::Value;

/// Where a breakpoint may stand in the chart of a program instance.
#[derive(Clone, Copy, Debug, PartialEq, Eq)]
pub enum Point {
    /// At a step: it hits when the step is activated (2.6.2).
    Step(StepId),
    /// At a transition: it hits when the transition is cleared (2.6.5).
    Transition(TransitionId),
    /// At an action: it hits when the action is executed (2.6.4.5).
    Action(ActionNumber),
}

/// A condition of breakpoints: its place in the debugger's table of conditions, from 0.
#[derive(Clone, Copy, Debug, PartialEq, Eq)]
pub struct CondId(pub u16);

/// What the debugger is asked. Instants are raw: those of the clock beside it, in microseconds.
#[derive(Clone, Copy, Debug, PartialEq, Eq)]
pub enum Command {
    /// A scan of a task that is due (2.7.2).
    Scan(TaskId),
    /// A value for a variable that is located at an input (2.4.1.1).
    Input(VarId, Value),
    /// The variable reads this value until its release.
    Force(VarId, Value),
    /// The variable reads its stored value again.
    Release(VarId),
    /// The program instance begins a new life.
    Reset(ProgId),
    /// What the variable reads.
    Read(VarId),
    /// A breakpoint of the program instance is set, without a condition.
    Break(ProgId, Point),
    /// A breakpoint is set that hits only where the condition is TRUE after the scan.
    BreakIf(ProgId, Point, CondId),
    /// The breakpoint is taken away.
    Unbreak(ProgId, Point),
    /// The resource is halted: time stands still.
    Stop,
    /// Time goes on.
    Go,
    /// While halted, one scan of a task, whether it is due or not, this many microseconds later.
    Single(TaskId, i64),
    /// Nothing is accepted any more.
    End,
    /// What was accepted so far may be summed up.
    Epoch,
}

impl Command {
    /// What it is for the resource, if it is anything: a single scan is one that needn't be due.
    pub fn event(self) -> Option<Event>
        ensures { result ≡ commands.event_of self }
    {
        match self {
            Command::Scan(task) => Some(Event::Scan(task)),
            Command::Single(task, _) => Some(Event::ForcedScan(task)),
            Command::Input(id, value) => Some(Event::Input(id, value)),
            Command::Force(id, value) => Some(Event::Force(id, value)),
            Command::Release(id) => Some(Event::Release(id)),
            Command::Reset(p) => Some(Event::Reset(p)),
            Command::Read(_)
            | Command::Break(_, _)
            | Command::BreakIf(_, _, _)
            | Command::Unbreak(_, _)
            | Command::Stop
            | Command::Go
            | Command::End
            | Command::Epoch => None,
        }
    }
}

/// What an accepted command answers.
#[derive(Clone, Copy, Debug, PartialEq, Eq)]
pub enum Answer {
    /// The command is done, and there is nothing to tell.
    Done,
    /// What the variable reads.
    Value(Value),
    /// A task was scanned.
    Scanned {
        /// The task's instances that ran without a fault.
        ran: InstanceSet,
        /// Those whose scan ended with a fault.
        faulted: InstanceSet,
        /// Those that were passed over because of an earlier fault.
        skipped: InstanceSet,
        /// The task's overruns since the opening; at most 2^64 - 1, where the count stays.
        overruns: u64,
        /// Whether a breakpoint was hit.
        hit: bool,
    },
}

/// A row of the debugger's trace: an accepted command and what it answered.
#[derive(Clone, Copy, Debug, PartialEq, Eq)]
pub struct TraceRow {
    /// Which of the accepted commands it is, from 1.
    pub number: u64,
    /// When it was given, by the clock beside the debugger, in microseconds.
    pub raw: i64,
    /// Its run instant, in microseconds.
    pub t: i64,
    /// The command.
    pub command: Command,
    /// What it answered.
    pub answer: Answer,
}
