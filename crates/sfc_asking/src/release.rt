//! When a task is scanned next.

use crate::sfc_debug::debugger::Debugger;
use crate::sfc_debug::mode::Mode;
use sfc_base::ids::TaskId;
use sfc_events::event::Event;
use sfc_events::refusal::Refusal;
use sfc_page::append::{append, append_time};
use std::alloc::{AllocError, Global};

/// When a task is scanned next.
#[derive(Clone, Copy, Debug, PartialEq, Eq)]
pub enum Release {
    /// A release of it waits, and it goes first.
    First,
    /// A release of it waits, and another task goes first.
    Waits,
    /// Its next release is at this run instant, in microseconds.
    Next(i64),
    /// None waits, and it has no interval.
    Unknown,
    /// Nothing is scanned any more.
    Never,
}

impl Release {
    /// Puts the words for it at the end. The one error is that memory was refused.
    pub fn append(self, out: &mut Vec<u8>) -> Result<(), AllocError> {
        match self {
            Release::First => append(out, b"goes first"),
            Release::Waits => append(out, b"waits"),
            Release::Next(instant) => {
                append(out, b"next ")?;
                append_time(out, instant)
            }
            Release::Unknown => append(out, b"next none"),
            Release::Never => append(out, b"ended"),
        }
    }
}

// What a scan of the task would be refused for tells.
fn release_by(refused: Option<Refusal>) -> Release {
    match refused {
        None => Release::First,
        Some(Refusal::Yield(_)) => Release::Waits,
        Some(Refusal::NotDue(Some(next))) => Release::Next(next),
        Some(Refusal::NotDue(None)) => Release::Unknown,
        Some(_) => Release::Never,
    }
}

// When a task is scanned next.
fn release_of(debugger: &Debugger, task: TaskId) -> Release {
    if debugger.mode() == Mode::Ended {
        return Release::Never;
    }
    let scan = Event::Scan(task);
    release_by(debugger.resource().refuse(scan, debugger.run_instant()))
}

/// When each task is scanned next, as of the last accepted command: of a halted resource, once it goes on. The one error is that memory was
/// refused.
pub fn releases(alloc: Global, debugger: &Debugger) -> Result<Vec<Release>, AllocError> {
    let tasks = debugger.resource().plant().tasks().len();
    let mut found = Vec::new(alloc);
    'tasks: for number in 0..tasks {
        found.push(release_of(debugger, TaskId(number as u8)))?;
    }
    Ok(found)
}
