//! A chart that goes back.

use crate::debuggee::Debuggee;
use crate::running::{Stop, focus};
use sfc_base::ids::ProgId;
use sfc_editing::back::play_front;
use sfc_editing::saying::is_halted;
use sfc_events::command::{Answer, Command, TraceRow};
use sfc_replay::replay_error::ReplayError;
use std::alloc::{AllocError, Global};

// Whether a command is no step of its own: it sets or takes a breakpoint, or lets the resource run on.
fn is_beside(command: Command) -> bool {
    matches!(
        command,
        Command::Break(_, _) | Command::BreakIf(_, _, _) | Command::Unbreak(_, _) | Command::Go
    )
}

// How many of these commands stand before those at their end that let the resource run on.
fn before_go(rows: &[TraceRow]) -> usize {
    let behind = rows
        .iter()
        .rev()
        .take_while(|row| row.command == Command::Go)
        .count();
    rows.len().saturating_sub(behind)
}

/// How many commands stand before the last one that is a step of its own, and before those in front of it that let the resource run on; None
/// where there is none.
pub fn before_last(rows: &[TraceRow]) -> Option<usize> {
    let beside = rows
        .iter()
        .rev()
        .take_while(|row| is_beside(row.command))
        .count();
    let count = rows.len().checked_sub(beside)?.checked_sub(1)?;
    Some(before_go(rows.get(..count).unwrap_or(&[])))
}

// Whether a command hit a breakpoint.
fn is_hit(row: &TraceRow) -> bool {
    matches!(row.answer, Answer::Scanned { hit: true, .. })
}

/// How many commands there are up to the last one that hit a breakpoint, the last step apart; 0 where there is none.
pub fn up_to_hit(rows: &[TraceRow]) -> usize {
    let Some(last) = before_last(rows) else {
        return 0;
    };
    let before = rows.get(..last).unwrap_or(&[]);
    let behind = before.iter().rev().take_while(|row| !is_hit(row)).count();
    before.len().saturating_sub(behind)
}

// Why a chart stands that went back.
fn back_stop(alloc: Global, debuggee: &Debuggee, wanted: ProgId) -> Result<Stop, AllocError> {
    let session = debuggee.prompt.session();
    let stop = match session.rows().last() {
        None => Stop::of(alloc, "entry", b"before the first command")?,
        Some(row) if is_hit(row) => Stop::of(alloc, "breakpoint", b"")?,
        Some(_) => Stop::of(alloc, "step", b"")?,
    };
    Ok(stop.at(focus(session, wanted)))
}

/// Goes back to where so many commands were accepted: the chart is opened anew, and all commands before them are given again. The breakpoints
/// that are asked for now are set then, where they aren't. None where that can't be done; then all is as it was. The one error is that memory
/// was refused.
pub fn go_back(
    alloc: Global,
    debuggee: &mut Debuggee,
    accepted: usize,
    wanted: ProgId,
    out: &mut Vec<u8>,
) -> Result<Option<Stop>, AllocError> {
    let script = debuggee.prompt.session().script();
    let played = match play_front(alloc, &debuggee.chart.text, script, accepted) {
        Ok(played) => played,
        Err(ReplayError::Memory) => return Err(AllocError),
        Err(_) => None,
    };
    let Some(prompt) = played else {
        return Ok(None);
    };
    debuggee.prompt = prompt;
    debuggee.frames.clear();
    if let Some(played) = &mut debuggee.played {
        played.go_back(accepted);
    }
    debuggee.marks.go_back(accepted);
    let stop = back_stop(alloc, debuggee, wanted)?;
    debuggee.owes_go = is_halted(debuggee.prompt.session());
    debuggee.marks.set(alloc, &mut debuggee.prompt, out)?;
    let _ = debuggee.watches.look(debuggee.prompt.session());
    Ok(Some(stop))
}
