//! Scans one after the other.

ghost use Rattle.std.specs.Prelude.{◌≤◌, IfOk, OnOk};
ghost use Rattle.sfc_prompt.specs.Prompts.{session_in};
ghost use Rattle.sfc_prompt.specs.Transcripts.{Puts};

use crate::scanning::command;
use sfc_base::ids::TaskId;
use sfc_events::command::Answer;
use sfc_prompt::prompt::Prompt;
use sfc_session::session::Session;
use sfc_showing::watches::Watches;
use std::alloc::AllocError;

/// What ends commands that are given one after the other, besides hits.
#[derive(Clone, Copy, Debug, PartialEq, Eq)]
pub struct Filters {
    /// The scan of a program instance that ends with a fault.
    pub fault: bool,
    /// A command that is refused.
    pub refused: bool,
    /// A scan that finds an overrun.
    pub overrun: bool,
}

/// Why commands ended that are given one after the other.
#[derive(Clone, Copy, Debug, PartialEq, Eq)]
pub enum End {
    /// As many were given as were asked for.
    Limit,
    /// A breakpoint was hit.
    Hit,
    /// The scan of a program instance ended with a fault.
    Fault,
    /// A command was refused.
    Refused,
    /// A task has an overrun more.
    Overrun,
    /// The watched value with this place has changed.
    Changed(usize),
}

/// Scans that were done one after the other.
#[derive(Clone, Copy, Debug, PartialEq, Eq)]
pub struct Burst {
    /// How many, with one that was refused.
    pub scans: u64,
    /// Why they ended.
    pub end: End,
}

// How many overruns all tasks have had.
fn overruns(session: &Session) -> u64 {
    let resource = session.debugger().resource();
    let mut all: u64 = 0;
    for number in 0..resource.plant().tasks().len() {
        if let Ok(number) = u8::try_from(number) {
            if usize::from(number) < resource.plant().tasks().len() {
                all = all.saturating_add(resource.overruns(TaskId(number)));
            }
        }
    }
    all
}

// Why a command that was answered so ends those before it, apart from overruns and watched values.
fn end_by(answer: Option<Answer>, filters: Filters) -> Option<End> {
    match answer {
        None if filters.refused => Some(End::Refused),
        Some(Answer::Scanned { hit: true, .. }) => Some(End::Hit),
        Some(Answer::Scanned { faulted, .. }) if filters.fault && !faulted.is_empty() => {
            Some(End::Fault)
        }
        _ => None,
    }
}

/// Obeys a line, and looks at what it has done: why it ends those before it, if it does. What is told is put at the end of `out`. The one
/// error is that memory was refused; then the prompt is of no more use.
pub fn give(
    prompt: &mut Prompt,
    words: &[u8],
    filters: Filters,
    watches: &mut Watches,
    out: &mut Vec<u8>,
) -> Result<Option<End>, AllocError>
    ensures { OnOk result (Puts (session_in prompt.old) (session_in prompt.new) out.old.items out.new.items) }
{
    let before = overruns(prompt.session());
    let answer = command(prompt, words, out)?;
    let changed = watches.look(prompt.session());
    if let Some(end) = end_by(answer, filters) {
        return Ok(Some(end));
    }
    if filters.overrun && overruns(prompt.session()) > before {
        return Ok(Some(End::Overrun));
    }
    match changed {
        Some(place) => Ok(Some(End::Changed(place))),
        None => Ok(None),
    }
}

/// Scans at releases, each of the task that goes first, until one ends them, at most so many. A scan that is refused ends them. What is told
/// is put at the end of `out`. The one error is that memory was refused; then the prompt is of no more use.
pub fn scan_on(
    prompt: &mut Prompt,
    most: u64,
    filters: Filters,
    watches: &mut Watches,
    out: &mut Vec<u8>,
) -> Result<Burst, AllocError>
    ensures puts { OnOk result (Puts (session_in prompt.old) (session_in prompt.new) out.old.items out.new.items) }
    ensures most { IfOk result (λ burst. burst.scans ≤ most) }
{
    let filters = Filters {
        refused: true,
        ..filters
    };
    let mut scans: u64 = 0;
    'scans: while scans < most {
        let end = give(prompt, b"SCAN", filters, watches, out)?;
        scans += 1;
        if let Some(end) = end {
            return Ok(Burst { scans, end });
        }
    }
    Ok(Burst {
        scans,
        end: End::Limit,
    })
}
