//! The breakpoints that are set.

use crate::note::append_note;
use crate::sfc_debug::debugger::Debugger;
use sfc_base::ids::ProgId;
use sfc_events::command::{Command, Point, TraceRow};
use sfc_output::command::append_command;
use std::alloc::{AllocError, Global};

// The point of which a command sets or takes a breakpoint.
fn place_of(command: Command) -> Option<(ProgId, Point)> {
    match command {
        Command::Break(program, point) => Some((program, point)),
        Command::BreakIf(program, point, _) => Some((program, point)),
        Command::Unbreak(program, point) => Some((program, point)),
        _ => None,
    }
}

/// Takes the next accepted command behind these, each of which has set a breakpoint that is set: one that sets a breakpoint comes behind them,
/// in place of that at the same point, if there is one, and one that takes it away drops that. So there are at most as many as breakpoints. The
/// one error is that memory was refused; then the breakpoint's command isn't among them.
pub fn follow(set: &mut Vec<TraceRow>, row: &TraceRow) -> Result<(), AllocError> {
    let Some(place) = place_of(row.command) else {
        return Ok(());
    };
    set.retain(|other| place_of(other.command) != Some(place));
    match row.command {
        Command::Unbreak(_, _) => {}
        _ => set.push(*row)?,
    }
    Ok(())
}

// The rows whose breakpoints are set behind all of these.
fn set_by(alloc: Global, rows: &[TraceRow]) -> Result<Vec<TraceRow>, AllocError> {
    let mut set = Vec::new(alloc);
    for row in rows {
        follow(&mut set, row)?;
    }
    Ok(set)
}

/// Puts at the end a line for each breakpoint that is set behind these accepted commands: the command that set it, as a replay writes it. The
/// one error is that memory was refused.
pub fn append_points(
    alloc: Global,
    out: &mut Vec<u8>,
    debugger: &Debugger,
    rows: &[TraceRow],
) -> Result<(), AllocError> {
    let set = set_by(alloc, rows)?;
    if set.is_empty() {
        return append_note(out, b"no breakpoint is set");
    }
    for row in &set {
        append_command(out, debugger, row.command, row.t, row.answer)?;
    }
    Ok(())
}
