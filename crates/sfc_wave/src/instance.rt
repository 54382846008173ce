//! The signals of the steps and actions of an instance.

use crate::dump::Dump;
use crate::sfc_instance::program_view::ProgramView;
use crate::shown::{Shown, nearer};
use sfc_base::ids::ActionNumber;
use sfc_base::references::StepId;
use sfc_base::ticks::Ticks;
use sfc_page::append::append;
use sfc_plant::names::Names;
use std::alloc::AllocError;

/// How many bits a step time has.
const TIME: u32 = 64;

// Puts X and T of a step, if there is such a step. It answers whether X is another.
fn put_step(
    dump: &mut Dump,
    view: &ProgramView<'_>,
    shown: &mut Shown,
    signal: usize,
    step: usize,
) -> Result<bool, AllocError> {
    if step >= view.tables().steps() {
        return Ok(false);
    }
    let id = StepId(step as u16);
    let is_active = view.active(id);
    let is_other = shown.keep_active(step, is_active);
    dump.put_bit(signal, is_active)?;
    let elapsed = view.elapsed(id).cast_unsigned();
    dump.put(signal.saturating_add(1), TIME, elapsed)?;
    Ok(is_other)
}

/// Puts the steps of an instance, whose signals begin here. T goes on while a step is active, and at the scan that leaves it. It answers
/// whether other steps are active than before. The one error is that memory was refused.
pub fn put_steps(
    dump: &mut Dump,
    view: &ProgramView<'_>,
    shown: &mut Shown,
    first: usize,
) -> Result<bool, AllocError> {
    let mut from = 0;
    let mut is_other = false;
    for _ in 0..view.steps() {
        let Some(step) = shown.next_step(view, from) else {
            break;
        };
        let signal = first.saturating_add(step.saturating_mul(2));
        is_other |= put_step(dump, view, shown, signal, step)?;
        from = step.saturating_add(1);
    }
    Ok(is_other)
}

// Puts the name of an active step behind those that stand there.
fn append_step(said: &mut Vec<u8>, names: &Names<'_>, step: usize) -> Result<(), AllocError> {
    let Ok(number) = u16::try_from(step) else {
        return Ok(());
    };
    if !said.is_empty() {
        append(said, b",")?;
    }
    append(said, names.step(StepId(number)))
}

/// The text becomes the names of the active steps of an instance in the order of the text, with commas between them, and `-` where none is.
/// The one error is that memory was refused.
pub fn say_active(said: &mut Vec<u8>, view: &ProgramView<'_>) -> Result<(), AllocError> {
    let names = view.plant().names(view.instance());
    let active = view.active_flags();
    let ticks = &mut Ticks::new();
    let mut from = 0;
    said.clear();
    for _ in 0..view.steps() {
        let Some(step) = active.next_set(from, ticks) else {
            break;
        };
        append_step(said, &names, step)?;
        from = step.saturating_add(1);
    }
    if said.is_empty() {
        append(said, b"-")?;
    }
    Ok(())
}

// Puts Q of an action, if there is such an action.
fn put_q(
    dump: &mut Dump,
    view: &ProgramView<'_>,
    shown: &mut Shown,
    signal: usize,
    action: usize,
) -> Result<(), AllocError> {
    if action >= view.actions() {
        return Ok(());
    }
    let q = view.q(ActionNumber(action));
    shown.keep_q(action, q);
    dump.put_bit(signal, q)
}

// Puts A of an action, if there is such an action.
fn put_executed(
    dump: &mut Dump,
    view: &ProgramView<'_>,
    shown: &mut Shown,
    signal: usize,
    action: usize,
) -> Result<(), AllocError> {
    if action >= view.actions() {
        return Ok(());
    }
    let is_executed = view.executed(ActionNumber(action));
    shown.keep_executed(action, is_executed);
    dump.put_bit(signal, is_executed)
}

/// Puts the actions of an instance, whose signals begin here. The one error is that memory was refused.
pub fn put_actions(
    dump: &mut Dump,
    view: &ProgramView<'_>,
    shown: &mut Shown,
    first: usize,
) -> Result<(), AllocError> {
    let mut q = shown.next_q(view, 0);
    let mut executed = shown.next_executed(view, 0);
    for _ in 0..view.actions() {
        let Some(action) = nearer(q, executed) else {
            break;
        };
        let signal = first.saturating_add(action.saturating_mul(2));
        let behind = action.saturating_add(1);
        if q == Some(action) {
            put_q(dump, view, shown, signal, action)?;
            q = shown.next_q(view, behind);
        }
        if executed == Some(action) {
            put_executed(dump, view, shown, signal.saturating_add(1), action)?;
            executed = shown.next_executed(view, behind);
        }
    }
    Ok(())
}
