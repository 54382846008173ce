//! The newest commands.

use crate::note::append_note;
use crate::sfc_debug::debugger::Debugger;
use sfc_events::command::TraceRow;
use sfc_output::command::append_row;
use std::alloc::AllocError;

/// Puts at the end a line for each of the newest accepted commands, at most this many, the oldest first: its number, and its line as a
/// replay writes it. The one error is that memory was refused.
pub fn append_trace(
    out: &mut Vec<u8>,
    debugger: &Debugger,
    rows: &[TraceRow],
    most: usize,
) -> Result<(), AllocError> {
    if rows.is_empty() {
        return append_note(out, b"no command was accepted");
    }
    let first = rows.len().saturating_sub(most);
    for row in rows.get(first..).unwrap_or(&[]) {
        append_row(out, debugger, *row)?;
    }
    Ok(())
}
