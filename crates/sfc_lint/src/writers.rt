//! Variables with two writers, at inputs, and that nobody uses (2.4, 2.6.4.1, 2.7.2).

use crate::finding::Findings;
use crate::kind::Kind;
use crate::usage::{Usage, Write};
use crate::view::View;
use sfc_base::location::Area;
use sfc_base::references::{GlobalId, LocalId, Variable};
use sfc_flags::flags::Flags;
use sfc_outline::item::Item;
use sfc_page::append::append;
use sfc_plant::plant::Plant;
use sfc_plant::variable::Variable as Declared;
use std::alloc::{AllocError, Global};

// The declaration of a variable of a program type.
fn declared<'a>(view: &View<'a>, variable: Variable) -> Option<&'a Declared> {
    match variable {
        Variable::Global(global) => view.plant.globals().get(global.0),
        Variable::Local(local) => view.program.locals.as_slice().get(local.0),
    }
}

// Whether a variable lies at an input.
fn is_input(view: &View<'_>, variable: Variable) -> bool {
    match declared(view, variable) {
        Some(found) => match &found.location {
            Some(location) => location.area() == Area::Input,
            None => false,
        },
        None => false,
    }
}

// Tells where a program type writes an input, or a variable of its own action block by a body.
fn tell_own(
    findings: &mut Findings,
    view: &View<'_>,
    usage: &Usage,
    write: &Write,
) -> Result<(), AllocError> {
    let name = view.variable(findings.alloc(), write.variable)?;
    if is_input(view, write.variable) {
        findings.tell(
            Kind::InputWritten,
            write.item,
            &[b"the program writes ", &name, b", which lies at an input"],
        )?;
    }
    if !write.is_block && usage.blocks.has(write.variable) {
        findings.tell(
            Kind::TwoWriters,
            write.item,
            &[
                b"a body assigns ",
                &name,
                b", which is an action of this program too: the block writes it in each scan",
            ],
        )?;
    }
    Ok(())
}

// Whether one of these writes the variable.
fn writes(usage: &Usage, global: GlobalId) -> bool {
    let variable = Variable::Global(global);
    usage.blocks.has(variable) || usage.bodies.has(variable)
}

// The name of an earlier program type that writes the variable, or that has two instances that do.
fn other_writer<'a>(
    views: &[View<'a>],
    usages: &[Usage],
    own: usize,
    global: GlobalId,
) -> Option<&'a [u8]> {
    for (view, usage) in views.iter().zip(usages) {
        if view.number < own && view.instances() > 0 && writes(usage, global) {
            return Some(view.name());
        }
        if view.number == own && view.instances() > 1 {
            return Some(view.name());
        }
    }
    None
}

// Tells the global variables that a program type writes beside another program, each once.
fn tell_shared(
    findings: &mut Findings,
    views: &[View<'_>],
    usages: &[Usage],
    view: &View<'_>,
    usage: &Usage,
) -> Result<(), AllocError> {
    if view.instances() == 0 {
        return Ok(());
    }
    for write in &usage.writes {
        let Variable::Global(global) = write.variable else {
            continue;
        };
        if !write.is_block && usage.blocks.has(write.variable) {
            continue;
        }
        if let Some(other) = other_writer(views, usages, view.number, global) {
            let mut told = Vec::new(findings.alloc());
            append(&mut told, b"another instance writes ")?;
            append(&mut told, &view.variable(findings.alloc(), write.variable)?)?;
            append(&mut told, b" too, of program ")?;
            append(&mut told, other)?;
            append(&mut told, b": the last one in a scan stays")?;
            findings.tell_text(Kind::TwoWriters, write.item, told)?;
        }
    }
    Ok(())
}

// Whether an instance of the first program type is scanned right before one of the second may be, in one task.
fn goes_before(plant: &Plant, first: usize, second: usize) -> bool {
    for (place, one) in plant.instances().iter().enumerate() {
        if one.program.0 != first {
            continue;
        }
        let is_before = plant.instances().iter().skip(place).any(|other| other.program.0 == second
            && other.task == one.task);
        if is_before {
            return true;
        }
    }
    false
}

// The name of a program type that comes later in the same task and has the variable as an action.
fn later_block<'a>(
    views: &[View<'a>],
    usages: &[Usage],
    reader: &View<'_>,
    global: GlobalId,
) -> Option<&'a [u8]> {
    for (view, usage) in views.iter().zip(usages) {
        let has_block = usage.blocks.has(Variable::Global(global));
        if has_block
            && view.number != reader.number
            && goes_before(reader.plant, reader.number, view.number)
        {
            return Some(view.name());
        }
    }
    None
}

// Tells the global variables that a body reads before another program's action block assigns them, each once.
fn tell_old(
    findings: &mut Findings,
    views: &[View<'_>],
    usages: &[Usage],
    view: &View<'_>,
    usage: &Usage,
) -> Result<(), AllocError> {
    for reading in &usage.readings {
        if let Some(other) = later_block(views, usages, view, reading.global) {
            let mut told = Vec::new(findings.alloc());
            append(&mut told, b"a body reads ")?;
            append(
                &mut told,
                &view.variable(findings.alloc(), Variable::Global(reading.global))?,
            )?;
            append(&mut told, b" before program ")?;
            append(&mut told, other)?;
            append(
                &mut told,
                b" assigns it: it has the value of the scan before",
            )?;
            findings.tell_text(Kind::ReadsOld, reading.item, told)?;
        }
    }
    Ok(())
}

// Whether a task is released by the variable.
fn releases(plant: &Plant, global: GlobalId) -> bool {
    plant.tasks().iter().any(|task| task.single == Some(global))
}

// The global variables that some program type names.
fn named_globals(alloc: Global, plant: &Plant, usages: &[Usage]) -> Result<Flags, AllocError> {
    let mut named = Flags::new(alloc, plant.globals().len())?;
    for usage in usages {
        usage.named.add_globals_to(&mut named);
    }
    Ok(named)
}

// Tells the global variables that nobody uses.
fn tell_unused_globals(
    findings: &mut Findings,
    plant: &Plant,
    usages: &[Usage],
) -> Result<(), AllocError> {
    let named = named_globals(findings.alloc(), plant, usages)?;
    for (place, variable) in plant.globals().iter().enumerate() {
        let is_named = place < named.count() && named.get(place);
        if is_named || releases(plant, GlobalId(place)) {
            continue;
        }
        let name = variable.name.spelling();
        findings.tell(
            Kind::Unused,
            Item::Global { global: place },
            &[b"nobody reads or writes ", name],
        )?;
    }
    Ok(())
}

// Tells the variables of a program type that nobody uses.
fn tell_unused_locals(
    findings: &mut Findings,
    view: &View<'_>,
    usage: &Usage,
) -> Result<(), AllocError> {
    for (place, variable) in view.program.locals.as_slice().iter().enumerate() {
        if usage.named.has(Variable::Local(LocalId(place))) {
            continue;
        }
        let item = Item::Local {
            program: view.number,
            local: place,
        };
        findings.tell(
            Kind::Unused,
            item,
            &[b"nobody reads or writes ", variable.name.spelling()],
        )?;
    }
    Ok(())
}

/// Tells what is wrong with who reads and writes the variables of a plant. The one error is that memory was refused.
pub fn tell_variables(
    findings: &mut Findings,
    plant: &Plant,
    views: &[View<'_>],
) -> Result<(), AllocError> {
    let alloc = findings.alloc();
    let mut usages = Vec::new(alloc);
    for view in views {
        usages.push(Usage::of(alloc, view)?)?;
    }
    for (view, usage) in views.iter().zip(&usages) {
        for write in &usage.writes {
            tell_own(findings, view, usage, write)?;
        }
        tell_shared(findings, views, &usages, view, usage)?;
        tell_old(findings, views, &usages, view, usage)?;
        tell_unused_locals(findings, view, usage)?;
    }
    tell_unused_globals(findings, plant, &usages)
}
