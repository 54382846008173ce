//! Modes, tasks and programs.

use crate::release::Release;
use crate::sfc_core::resource::Resource;
use crate::sfc_debug::debugger::Debugger;
use crate::sfc_debug::mode::Mode;
use crate::sfc_instance::scan_end::ScanEnd;
use sfc_base::ids::{ProgId, TaskId};
use sfc_output::program::append_program;
use sfc_page::append::{append, append_number, append_time};
use sfc_plant::names::task_name;
use std::alloc::AllocError;

// The word for a mode.
fn mode_word(mode: Mode) -> &'static [u8] {
    match mode {
        Mode::Running => b"running",
        Mode::Stopped => b"halted",
        Mode::Ended => b"ended",
    }
}

// The instants and the mode.
fn append_clock(out: &mut Vec<u8>, debugger: &Debugger, instant: i64) -> Result<(), AllocError> {
    append(out, b"instant ")?;
    append_time(out, instant)?;
    append(out, b" run ")?;
    append_time(out, debugger.run_instant())?;
    append(out, b" ")?;
    append(out, mode_word(debugger.mode()))?;
    append(out, b"\n")
}

// A task, with its next release.
fn append_task(
    out: &mut Vec<u8>,
    resource: &Resource,
    number: usize,
    release: Release,
) -> Result<(), AllocError> {
    let tasks = resource.plant().tasks();
    if number >= tasks.len() {
        return Ok(());
    }
    append(out, b"task ")?;
    append(out, task_name(tasks, number))?;
    append(out, b" ")?;
    release.append(out)?;
    append(out, b" overruns ")?;
    append_number(out, resource.overruns(TaskId(number as u8)))?;
    append(out, b"\n")
}

// How the latest scan of an instance ended.
fn append_instance(
    out: &mut Vec<u8>,
    resource: &Resource,
    number: usize,
) -> Result<(), AllocError> {
    if number >= resource.plant().instances().len() {
        return Ok(());
    }
    let view = resource.program(ProgId(number as u8));
    match view.fault() {
        Some(_) => append_program(out, &view, ScanEnd::Faulted),
        None => append_program(out, &view, ScanEnd::Ran),
    }
}

// A line for each task.
fn append_tasks(
    out: &mut Vec<u8>,
    resource: &Resource,
    releases: &[Release],
) -> Result<(), AllocError> {
    for (number, release) in releases.iter().enumerate() {
        append_task(out, resource, number, *release)?;
    }
    Ok(())
}

/// Puts at the end how all stands: the raw instant and the run instant of the last accepted command, in microseconds, and the mode; a line for
/// each task, with its next release; and one for each program instance, as below a scan. The one error is that memory was refused.
pub fn append_show(
    out: &mut Vec<u8>,
    debugger: &Debugger,
    instant: i64,
    releases: &[Release],
) -> Result<(), AllocError> {
    append_clock(out, debugger, instant)?;
    let resource = debugger.resource();
    append_tasks(out, resource, releases)?;
    for number in 0..resource.plant().instances().len() {
        append_instance(out, resource, number)?;
    }
    Ok(())
}
