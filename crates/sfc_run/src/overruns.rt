//! When overruns are told.

ghost use Rattle.std.specs.Prelude.{◌≡◌};
ghost use Rattle.sfc_run.specs.Overruns as rules;

use sfc_base::ids::TaskId;
use sfc_base::limits::TASKS;
use sfc_events::command::{Answer, Command, TraceRow};

/// How long a task's overruns aren't told again, in microseconds.
const PAUSE: i64 = 1_000_000;

/// What was last told of a task's overruns.
#[derive(Clone, Copy)]
pub struct LastTold {
    /// How many they were.
    pub overruns: u64,
    /// At which run instant it was told, in microseconds.
    pub t: i64,
}

/// What was last told of each task's overruns.
#[derive(Clone, Copy)]
pub struct OverrunsTold {
    tasks: [LastTold; TASKS],
}

// The task of a scan.
pub(crate) fn task_of(command: Command) -> Option<TaskId>
    ensures { result ≡ rules.task_of command }
{
    match command {
        Command::Scan(task) | Command::Single(task, _) => Some(task),
        _ => None,
    }
}

// How many overruns an answer tells.
fn overruns_of(answer: Answer) -> u64
    ensures { result ≡ rules.overruns_of answer }
{
    match answer {
        Answer::Scanned { overruns, .. } => overruns,
        _ => 0,
    }
}

// Whether so many overruns are told at a run instant, behind what was last told.
fn is_news(last: LastTold, overruns: u64, t: i64) -> bool
    ensures { result ≡ rules.is_news last overruns t }
{
    last.overruns < overruns && last.t.saturating_add(PAUSE) <= t
}

#[tactic(auto, unfolding(crate::specs::Overruns::told_in))]
impl OverrunsTold {
    ghost use Rattle.std.specs.Prelude.{replicate};
    ghost use Rattle.sfc_run.specs.Overruns.{told_in};

    /// None was told yet, so that each task's first is told at any instant.
    pub fn new() -> OverrunsTold
        ensures { told_in result ≡ replicate 16 rules.nothing_told }
    {
        OverrunsTold {
            tasks: [LastTold {
                overruns: 0,
                t: -PAUSE,
            }; TASKS],
        }
    }

    /// Whether the overruns of the row's task are told with it: where they are more than were last told of the task, and that was a second
    /// ago at least, by the run's clock. They are told then.
    pub fn is_due(&mut self, row: TraceRow) -> bool
        ensures due { result ≡ rules.is_due (told_in self.old) row }
        ensures told { told_in self.new ≡ rules.told_after (told_in self.old) row }
    {
        let Some(task) = task_of(row.command) else {
            return false;
        };
        let overruns = overruns_of(row.answer);
        let place = task.0 as usize;
        let Some(last) = self.tasks.get(place) else {
            return false;
        };
        if !is_news(*last, overruns, row.t) {
            return false;
        }
        self.tasks[place] = LastTold { overruns, t: row.t };
        true
    }
}
