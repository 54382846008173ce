//! What may happen to a resource, and what it answers.

ghost use Rattle.std.specs.Prelude.{◌≡◌};
ghost use Rattle.sfc_events.specs.Events as events;

use crate::instance_set::InstanceSet;
use sfc_base::ids::{ProgId, TaskId, VarId};
use sfc_base::value::Value;

/// What may happen to a resource.
#[derive(Clone, Copy, Debug, PartialEq, Eq)]
pub enum Event {
    /// A scan of a task that is due: each of its programs is scanned once, in text order (2.7.2).
    Scan(TaskId),
    /// A scan of a task, whether it is due or not.
    ForcedScan(TaskId),
    /// A value for a variable that is located at an input (2.4.1.1).
    Input(VarId, Value),
    /// The variable reads this value until its release, whatever is stored meanwhile.
    Force(VarId, Value),
    /// The variable reads its stored value again.
    Release(VarId),
    /// The program instance begins a new life, and its locals get their initial values.
    Reset(ProgId),
}

impl Event {
    /// The task that it scans, if it is a scan (2.7.2).
    pub fn scanned_task(self) -> Option<TaskId>
        ensures { result ≡ events.scanned_task self }
    {
        match self {
            Event::Scan(task) | Event::ForcedScan(task) => Some(task),
            Event::Input(_, _) | Event::Force(_, _) | Event::Release(_) | Event::Reset(_) => None,
        }
    }
}

/// What an accepted event answers.
#[derive(Clone, Copy, Debug, PartialEq, Eq)]
pub enum Outcome {
    /// The event is done, and there is nothing to tell.
    Done,
    /// A task was scanned.
    Scanned {
        /// The task's instances that ran without a fault.
        ran: InstanceSet,
        /// Those whose scan ended with a fault.
        faulted: InstanceSet,
        /// Those that were passed over because of an earlier fault.
        skipped: InstanceSet,
        /// The task's overruns since the opening; at most 2^64 - 1, where the count stays.
        overruns: u64,
    },
}
