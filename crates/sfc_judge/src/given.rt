//! Commands that were given.

ghost use Rattle.std.specs.Prelude.{◌≡◌};
ghost use Rattle.sfc_judge.specs.Holding as holding;

use sfc_base::ids::TaskId;
use sfc_events::command::{Answer, Command};
use sfc_events::refusal::Refusal;

/// A command that was given, and what it was answered.
#[derive(Clone, Copy, Debug)]
pub struct Given {
    pub command: Command,
    pub answer: Result<Answer, Refusal>,
    /// How many overruns the latest scan of the task told that it scans, 0 before the first.
    pub overruns: u64,
    /// Which of the case's stimuli gave it, counted from 0, if one did.
    pub stimulus: Option<usize>,
}

/// The task that a command scans, if it scans one.
pub fn task_of(command: Command) -> Option<TaskId>
    ensures { result ≡ holding.task_of command }
{
    match command {
        Command::Scan(task) | Command::Single(task, _) => Some(task),
        _ => None,
    }
}
