//! Why transitions aren't cleared.

use crate::note::{append_named, append_note};
use crate::operands::append_operands;
use crate::sfc_core::resource::Resource;
use crate::sfc_instance::program_view::ProgramView;
use crate::sfc_instance::scan_fault::ScanFault;
use crate::sfc_list::list_expr::list_expr;
use sfc_base::ids::{ProgId, TransitionId};
use sfc_base::references::StepId;
use sfc_base::ticks::Ticks;
use sfc_expr::eval::eval;
use sfc_expr::expr::Expr;
use sfc_output::fault_place::append_faulted;
use sfc_page::append::{append, append_number};
use sfc_plant::chart::Transition;
use sfc_plant::names::Names;
use sfc_plant::program_type::ProgramType;
use sfc_script::point::find_transition;
use std::alloc::{AllocError, Global};

/// A program instance whose transitions are asked for.
struct Asked<'a> {
    alloc: Global,
    resource: &'a Resource,
    program: ProgId,
    program_type: &'a ProgramType,
    names: Names<'a>,
    view: ProgramView<'a>,
}

// By hand, so that a caller that drops one proves one call.
impl Drop for Asked<'_> {
    fn drop(self) {
        let Asked {
            alloc: _,
            resource: _,
            program: _,
            program_type: _,
            names: _,
            view: _,
        } = self;
    }
}

// A program instance that is asked for, where it is there.
fn find_asked(alloc: Global, resource: &Resource, program: ProgId) -> Option<Asked<'_>> {
    let plant = resource.plant();
    if usize::from(program.0) >= plant.instances().len() {
        return None;
    }
    Some(Asked {
        alloc,
        resource,
        program,
        program_type: plant.type_of(program)?,
        names: plant.names(program),
        view: resource.program(program),
    })
}

// Whether a step is active.
fn is_active(view: &ProgramView<'_>, step: StepId) -> bool {
    usize::from(step.0) < view.steps() && view.active(step)
}

// What a condition evaluates to.
fn value_word(view: &ProgramView<'_>, expr: &Expr) -> &'static [u8] {
    let mut ticks = Ticks::new();
    match eval(expr, view, &mut ticks) {
        Ok(value) if value.is_true() => b"TRUE",
        Ok(_) => b"FALSE",
        Err(fault) => ScanFault::Expression(fault).name(),
    }
}

// Whether all steps before a transition are active.
fn is_enabled(view: &ProgramView<'_>, transition: &Transition) -> bool {
    for step in transition.preceding.as_slice() {
        if !is_active(view, *step) {
            return false;
        }
    }
    true
}

// Whether one of the steps before a transition is active.
fn is_near(view: &ProgramView<'_>, transition: &Transition) -> bool {
    for step in transition.preceding.as_slice() {
        if is_active(view, *step) {
            return true;
        }
    }
    false
}

// The name of a transition, behind a blank, where it has one.
fn append_name(out: &mut Vec<u8>, transition: &Transition) -> Result<(), AllocError> {
    match &transition.name {
        Some(name) => {
            append(out, b" ")?;
            append(out, name.spelling())
        }
        None => Ok(()),
    }
}

// A line for each step before a transition.
fn append_steps(
    out: &mut Vec<u8>,
    asked: &Asked<'_>,
    transition: &Transition,
) -> Result<(), AllocError> {
    for step in transition.preceding.as_slice() {
        append(out, b"  step ")?;
        append(out, asked.names.step(*step))?;
        if is_active(&asked.view, *step) {
            append(out, b" is active\n")?;
        } else {
            append(out, b" isn't active\n")?;
        }
    }
    Ok(())
}

// The condition, what it evaluates to, and what it reads.
fn append_condition(
    out: &mut Vec<u8>,
    asked: &Asked<'_>,
    transition: &Transition,
) -> Result<(), AllocError> {
    let expr = transition.condition.expr();
    append(out, b"  condition ")?;
    append(out, value_word(&asked.view, expr))?;
    append(out, b": ")?;
    let plant = asked.resource.plant();
    if usize::from(asked.program.0) < plant.instances().len()
        && list_expr(plant, asked.program, expr, out).is_err()
    {
        return Err(AllocError);
    }
    append(out, b"\n")?;
    append_operands(asked.alloc, out, &asked.names, &asked.view, expr)
}

// What the first line says at its end.
fn state_word(view: &ProgramView<'_>, transition: &Transition) -> &'static [u8] {
    if is_enabled(view, transition) {
        b" enabled\n"
    } else {
        b" not enabled\n"
    }
}

// The lines of a transition with this number, from 0.
fn append_transition(
    out: &mut Vec<u8>,
    asked: &Asked<'_>,
    number: usize,
    transition: &Transition,
) -> Result<(), AllocError> {
    let plant = asked.resource.plant();
    append(out, plant.instance_name(asked.program))?;
    append(out, b" TRANSITION ")?;
    append_number(out, (number as u64).saturating_add(1))?;
    append_name(out, transition)?;
    append(out, state_word(&asked.view, transition))?;
    append_steps(out, asked, transition)?;
    append_condition(out, asked, transition)
}

// The lines of each transition behind an active step; how many there are.
fn append_near(out: &mut Vec<u8>, asked: &Asked<'_>) -> Result<usize, AllocError> {
    let transitions = asked.program_type.chart.transitions.as_slice();
    let mut count: usize = 0;
    for (number, transition) in transitions.iter().enumerate() {
        if is_near(&asked.view, transition) {
            append_transition(out, asked, number, transition)?;
            count = count.saturating_add(1);
        }
    }
    Ok(count)
}

// The names of the initial steps, divided by commas.
fn append_initial(out: &mut Vec<u8>, asked: &Asked<'_>) -> Result<(), AllocError> {
    let mut is_first = true;
    for step in asked.program_type.chart.steps.as_slice() {
        if step.is_initial {
            if !is_first {
                append(out, b",")?;
            }
            append(out, b" ")?;
            append(out, step.name.spelling())?;
            is_first = false;
        }
    }
    append(out, b"\n")
}

// What is told of an instance no step of which has a transition behind it that is active.
fn append_none(out: &mut Vec<u8>, asked: &Asked<'_>) -> Result<(), AllocError> {
    let name = asked.resource.plant().instance_name(asked.program);
    if 0 < asked.view.scans() {
        return append_named(out, b"no transition is behind an active step of ", name);
    }
    append(out, b"; ")?;
    append(out, name)?;
    append(out, b" had no scan yet: the next one activates")?;
    append_initial(out, asked)
}

// The lines of each transition behind an active step of an instance.
fn append_program(
    alloc: Global,
    out: &mut Vec<u8>,
    resource: &Resource,
    program: ProgId,
) -> Result<(), AllocError> {
    let Some(asked) = find_asked(alloc, resource, program) else {
        return Ok(());
    };
    append_faulted(out, &asked.view)?;
    if append_near(out, &asked)? == 0 {
        append_none(out, &asked)?;
    }
    Ok(())
}

// The lines of each transition behind an active step of any instance.
fn append_all(alloc: Global, out: &mut Vec<u8>, resource: &Resource) -> Result<(), AllocError> {
    for number in 0..resource.plant().instances().len() {
        if let Ok(number) = u8::try_from(number) {
            append_program(alloc, out, resource, ProgId(number))?;
        }
    }
    Ok(())
}

// The lines of one transition of an instance.
fn append_one(
    alloc: Global,
    out: &mut Vec<u8>,
    resource: &Resource,
    program: ProgId,
    transition: TransitionId,
) -> Result<bool, AllocError> {
    let Some(asked) = find_asked(alloc, resource, program) else {
        return Ok(false);
    };
    let number = usize::from(transition.0);
    let transitions = asked.program_type.chart.transitions.as_slice();
    match transitions.get(number) {
        Some(transition) => {
            append_transition(out, &asked, number, transition)?;
            Ok(true)
        }
        None => Ok(false),
    }
}

/// Puts at the end why transitions aren't cleared: of one of a program instance, by its name or number, or where none is given of each that has
/// an active step before it, of one instance or of all. Of each it tells which steps before it are active, its condition, what that evaluates
/// to, and what it reads, with the times of steps as of the latest scan. Of an instance that ended with a fault it is told where that is; of one
/// that had no scan in its life, or has no such transition, that. The one error is that memory was refused.
pub fn append_why(
    alloc: Global,
    out: &mut Vec<u8>,
    resource: &Resource,
    program: &[u8],
    transition: &[u8],
) -> Result<(), AllocError> {
    if program.is_empty() {
        return append_all(alloc, out, resource);
    }
    let plant = resource.plant();
    let Some(instance) = plant.find_instance(program) else {
        return append_named(out, b"no program instance ", program);
    };
    if transition.is_empty() {
        return append_program(alloc, out, resource, instance);
    }
    let told = match find_transition(plant, instance, transition) {
        Some(found) => append_one(alloc, out, resource, instance, found)?,
        None => false,
    };
    if told {
        Ok(())
    } else {
        append_named(out, b"no transition ", transition)
    }
}
