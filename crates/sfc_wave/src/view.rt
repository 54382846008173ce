//! The signals as a viewer shows them first: inputs, steps, outputs.

use crate::asked::Asked;
use crate::named::append_whole_name;
use crate::picked::{Picked, numbers_of};
use crate::sfc_core::resource::Resource;
use crate::signal::Signal;
use crate::signals::Signals;
use sfc_base::ids::VarId;
use sfc_base::location::Area;
use sfc_page::append::{append, append_number};
use sfc_plant::plant::Plant;
use std::alloc::{AllocError, Global};

/// What a signal is to a machine.
#[derive(Clone, Copy, Debug, PartialEq, Eq)]
enum Part {
    /// An input variable (2.4.1.1).
    Input,
    /// Steps.
    Step,
    /// An output variable.
    Output,
    /// Anything else.
    Other,
}

// What a variable is.
fn part_of_variable(plant: &Plant, variable: VarId) -> Part {
    let Some(variable) = plant.variable(variable) else {
        return Part::Other;
    };
    let Some(location) = &variable.location else {
        return Part::Other;
    };
    match location.area() {
        Area::Input => Part::Input,
        Area::Output => Part::Output,
        Area::Memory => Part::Other,
    }
}

// What a signal is. Of an instance whose signals are not asked for one by one, the names of its active steps stand for all steps.
fn part_of(plant: &Plant, signal: Signal, is_chosen: bool) -> Part {
    match signal {
        Signal::Variable(variable, _) => part_of_variable(plant, variable),
        Signal::Steps(_) => Part::Step,
        Signal::Active(_, _) if is_chosen => Part::Step,
        _ => Part::Other,
    }
}

// One part of the signals that are wanted, in the order in which they are declared.
fn push_part(
    numbers: &mut Vec<usize>,
    plant: &Plant,
    signals: &Signals,
    picked: (&Picked, bool),
    part: Part,
) -> Result<(), AllocError> {
    let (picked, is_chosen) = picked;
    for number in 0..signals.list.len() {
        if let Some(signal) = signals.list.get(number) {
            if picked.has(number) && part_of(plant, *signal, is_chosen) == part {
                numbers.push(number)?;
            }
        }
    }
    Ok(())
}

/// The numbers of the signals that are wanted: inputs, steps, outputs; and where they were chosen by names, the others behind these. The one
/// error is that memory was refused.
pub fn in_parts(
    alloc: Global,
    plant: &Plant,
    signals: &Signals,
    picked: &Picked,
    is_chosen: bool,
) -> Result<Vec<usize>, AllocError> {
    let mut numbers = Vec::new(alloc);
    for part in [Part::Input, Part::Step, Part::Output] {
        push_part(&mut numbers, plant, signals, (picked, is_chosen), part)?;
    }
    if is_chosen {
        push_part(
            &mut numbers,
            plant,
            signals,
            (picked, is_chosen),
            Part::Other,
        )?;
    }
    Ok(numbers)
}

/// The numbers of the signals that are wanted in the order in which they were asked for; where no name was given, inputs, steps, outputs. The
/// one error is that memory was refused.
pub fn in_turn(
    alloc: Global,
    resource: &Resource,
    signals: &Signals,
    picked: &Picked,
    asked: Asked<'_>,
) -> Result<Vec<usize>, AllocError> {
    if asked.only.is_empty() {
        return in_parts(alloc, resource.plant(), signals, picked, false);
    }
    let mut numbers = Vec::new(alloc);
    for name in asked.only {
        let named = numbers_of(alloc, resource, signals, name.as_bytes())?;
        numbers.extend_from_slice(&named)?;
    }
    Ok(numbers)
}

// How GTKWave shows a signal: a bit in binary, a number as a signed decimal, a text as it stands.
fn trace_flags(signal: Signal) -> &'static [u8] {
    if signal.is_text() {
        b"@820\n"
    } else if signal.width() == 1 {
        b"@28\n"
    } else {
        b"@420\n"
    }
}

// The range of the bits of a number, which stands behind its name.
fn append_range(out: &mut Vec<u8>, signal: Signal) -> Result<(), AllocError> {
    if signal.is_text() || signal.width() == 1 {
        return Ok(());
    }
    append(out, b"[")?;
    append_number(out, u64::from(signal.width().saturating_sub(1)))?;
    append(out, b":0]")
}

// A signal of a save file.
fn append_trace(
    out: &mut Vec<u8>,
    resource: &Resource,
    signals: &Signals,
    number: usize,
) -> Result<(), AllocError> {
    let Some(signal) = signals.list.get(number) else {
        return Ok(());
    };
    append(out, trace_flags(*signal))?;
    append(out, resource.plant().resource().spelling())?;
    append(out, b".")?;
    append_whole_name(out, resource, signals, number)?;
    append_range(out, *signal)?;
    append(out, b"\n")
}

/// The text of a save file of GTKWave: the signals that are wanted, in this order: inputs, steps, outputs, and others that were asked for by
/// name. The one error is that memory was refused.
pub fn save_file(
    alloc: Global,
    resource: &Resource,
    signals: &Signals,
    picked: &Picked,
    asked: Asked<'_>,
) -> Result<Vec<u8>, AllocError> {
    let is_chosen = !asked.only.is_empty();
    let numbers = in_parts(alloc, resource.plant(), signals, picked, is_chosen)?;
    let mut out = Vec::from_slice(alloc, b"[timestart] 0\n[signals_width] 200\n")?;
    for number in &numbers {
        append_trace(&mut out, resource, signals, *number)?;
    }
    Ok(out)
}
