//! The names of signals.

use crate::sfc_core::resource::Resource;
use crate::sfc_instance::program_view::ProgramView;
use crate::signal::Signal;
use crate::signals::Signals;
use sfc_base::ids::{ProgId, VarId};
use sfc_page::append::append;
use sfc_plant::names::Names;
use sfc_plant::plant::Plant;
use std::alloc::AllocError;

// A name, and a word behind it.
fn append_named(out: &mut Vec<u8>, name: &[u8], word: &[u8]) -> Result<(), AllocError> {
    append(out, name)?;
    append(out, word)
}

// The name of a variable as it was declared.
fn variable_name(plant: &Plant, variable: VarId) -> &[u8] {
    match plant.variable(variable) {
        Some(variable) => variable.name.spelling(),
        None => b"",
    }
}

/// Puts the name of a signal of the resource, or of a variable, within its scope. The one error is that memory was refused; then a front of it
/// may stand there.
pub fn append_name(out: &mut Vec<u8>, plant: &Plant, signal: Signal) -> Result<(), AllocError> {
    match signal {
        Signal::Running => append(out, b"mode.Running"),
        Signal::Scan(task) => append_named(out, plant.task_name(task), b".scan"),
        Signal::Overruns(task) => append_named(out, plant.task_name(task), b".overruns"),
        Signal::Variable(variable, _) => append(out, variable_name(plant, variable)),
        Signal::Forced(variable) => append_named(out, variable_name(plant, variable), b".forced"),
        _ => Ok(()),
    }
}

/// Puts the name of a signal of an instance within the instance's scope. The one error is that memory was refused; then a front of it may
/// stand there.
pub fn append_name_in(
    out: &mut Vec<u8>,
    view: &ProgramView<'_>,
    names: &Names<'_>,
    signal: Signal,
) -> Result<(), AllocError> {
    match signal {
        Signal::Active(_, step) => append_named(out, names.step(step), b".X"),
        Signal::Elapsed(_, step) => append_named(out, names.step(step), b".T"),
        Signal::Q(_, action) => append_named(out, view.tables().action_name(names, action), b".Q"),
        Signal::Executed(_, action) => {
            append_named(out, view.tables().action_name(names, action), b".A")
        }
        Signal::Steps(_) => append(out, b"steps.active"),
        _ => append_name(out, view.plant(), signal),
    }
}

// The whole name of a signal of an instance.
fn append_instance_name(
    out: &mut Vec<u8>,
    resource: &Resource,
    instance: usize,
    signal: Signal,
) -> Result<(), AllocError> {
    let plant = resource.plant();
    let Some(named) = plant.instances().get(instance) else {
        return Ok(());
    };
    append_named(out, named.name.spelling(), b".")?;
    let program = ProgId(instance as u8);
    append_name_in(
        out,
        &resource.program(program),
        &plant.names(program),
        signal,
    )
}

/// Puts the whole name of the signal with this number, but for the resource's: that of an instance with the name of the instance in front.
/// The one error is that memory was refused; then a front of it may stand there.
pub fn append_whole_name(
    out: &mut Vec<u8>,
    resource: &Resource,
    signals: &Signals,
    number: usize,
) -> Result<(), AllocError> {
    let Some(signal) = signals.list.get(number) else {
        return Ok(());
    };
    match signals.instance_of(number) {
        None => append_name(out, resource.plant(), *signal),
        Some(instance) => append_instance_name(out, resource, instance, *signal),
    }
}
