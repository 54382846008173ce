//! What variables, steps, actions and transitions of a program instance read, as names and values.

use crate::own::{is_active, variable_reads, view_of};
use crate::sfc_instance::program_view::ProgramView;
use crate::sfc_instance::scan_fault::ScanFault;
use sfc_base::ids::{ActionNumber, ProgId, VarId};
use sfc_base::location::Area;
use sfc_base::references::StepId;
use sfc_base::ticks::Ticks;
use sfc_base::value::Value;
use sfc_base::var_type::VarType;
use sfc_expr::eval::eval;
use sfc_output::naming::append_image_name;
use sfc_output::sfc_list::list_expr::list_expr;
use sfc_page::append::{append, append_number, append_time, append_value};
use sfc_plant::chart::Transition;
use sfc_plant::plant::Plant;
use sfc_plant::variable::Variable;
use sfc_session::session::Session;
use std::alloc::{AllocError, Global};

/// What is shown together.
#[derive(Clone, Copy, Debug, PartialEq, Eq)]
pub enum Group {
    /// Global variables that are located at inputs (2.4.1.1).
    Inputs,
    /// Those that are located at outputs.
    Outputs,
    /// The other global variables.
    Globals,
    /// The variables of the program instance's own.
    Locals,
    /// Its steps: whether each is active, and its time (2.6.2).
    Steps,
    /// Its actions: their Q, and whether the latest scan executed them (2.6.4.5).
    Actions,
    /// Its transitions: whether each is enabled, and its condition (2.6.3).
    Transitions,
}

/// Something that is shown.
pub struct Reading {
    /// Its name, by which it is found in an expression.
    pub name: Vec<u8>,
    /// What it reads.
    pub value: Vec<u8>,
    /// Its type; nothing where it has none.
    pub kind: &'static str,
}

// By hand, so that a caller that drops one proves one call.
impl Drop for Reading {
    fn drop(self) {
        let Reading {
            name: _,
            value: _,
            kind: _,
        } = self;
    }
}

/// The name of a type (2.3.1).
pub fn type_word(var_type: VarType) -> &'static str {
    match var_type {
        VarType::Bool => "BOOL",
        VarType::Int => "INT",
        VarType::Dint => "DINT",
        VarType::Time => "TIME",
    }
}

/// The value as text, and behind it whether it is forced. The one error is that memory was refused.
pub fn reading_text(alloc: Global, value: Value, is_forced: bool) -> Result<Vec<u8>, AllocError> {
    let mut text = Vec::new(alloc);
    append_value(&mut text, value)?;
    if is_forced {
        append(&mut text, b" (forced)")?;
    }
    Ok(text)
}

// What a variable of the image reads, under this name.
fn shown_variable(
    alloc: Global,
    session: &Session,
    id: VarId,
    name: Vec<u8>,
) -> Result<Option<Reading>, AllocError> {
    match variable_reads(session.debugger().resource(), id) {
        Some((value, forced)) => Ok(Some(Reading {
            name,
            value: reading_text(alloc, value, forced.is_some())?,
            kind: type_word(value.var_type()),
        })),
        None => Ok(None),
    }
}

// The group of a global variable.
fn group_of(variable: &Variable) -> Group {
    match &variable.location {
        Some(location) => match location.area() {
            Area::Input => Group::Inputs,
            Area::Output => Group::Outputs,
            Area::Memory => Group::Globals,
        },
        None => Group::Globals,
    }
}

// The global variables of a group.
fn shown_globals(
    alloc: Global,
    session: &Session,
    group: Group,
    shown: &mut Vec<Reading>,
) -> Result<(), AllocError> {
    let plant = session.plant();
    for variable in plant.globals() {
        if group_of(variable) == group {
            let name = variable.name.spelling();
            if let Some(id) = plant.find_global(name) {
                let name = Vec::from_slice(alloc, name)?;
                if let Some(found) = shown_variable(alloc, session, id, name)? {
                    shown.push(found)?;
                }
            }
        }
    }
    Ok(())
}

// The variable of a program instance's own with this name.
fn find_local(plant: &Plant, program: ProgId, name: &[u8]) -> Option<VarId> {
    if usize::from(program.0) >= plant.instances().len() {
        return None;
    }
    plant.find_local(program, name)
}

// The variables of a program instance's own.
fn shown_locals(
    alloc: Global,
    session: &Session,
    program: ProgId,
    shown: &mut Vec<Reading>,
) -> Result<(), AllocError> {
    let plant = session.plant();
    for variable in plant.locals(program) {
        let name = variable.name.spelling();
        if let Some(id) = find_local(plant, program, name) {
            let name = Vec::from_slice(alloc, name)?;
            if let Some(found) = shown_variable(alloc, session, id, name)? {
                shown.push(found)?;
            }
        }
    }
    Ok(())
}

// A name with a part behind a dot.
fn dotted(alloc: Global, name: &[u8], part: &[u8]) -> Result<Vec<u8>, AllocError> {
    let mut text = Vec::from_slice(alloc, name)?;
    append(&mut text, b".")?;
    append(&mut text, part)?;
    Ok(text)
}

// Something that is TRUE or FALSE.
fn shown_flag(alloc: Global, name: Vec<u8>, flag: bool) -> Result<Reading, AllocError> {
    Ok(Reading {
        name,
        value: reading_text(alloc, Value::Bool(flag), false)?,
        kind: "BOOL",
    })
}

// The X and the T of a step.
fn show_step(
    alloc: Global,
    view: &ProgramView<'_>,
    step: StepId,
    name: &[u8],
    shown: &mut Vec<Reading>,
) -> Result<(), AllocError> {
    if usize::from(step.0) >= view.steps() {
        return Ok(());
    }
    let active = view.active(step);
    shown.push(shown_flag(alloc, dotted(alloc, name, b"X")?, active)?)?;
    let time = Value::Time(view.elapsed(step));
    shown.push(Reading {
        name: dotted(alloc, name, b"T")?,
        value: reading_text(alloc, time, false)?,
        kind: "TIME",
    })?;
    Ok(())
}

// The steps of a program instance.
fn shown_steps(
    alloc: Global,
    session: &Session,
    program: ProgId,
    shown: &mut Vec<Reading>,
) -> Result<(), AllocError> {
    let resource = session.debugger().resource();
    let (Some(view), Some(program_type)) = (
        view_of(resource, program),
        session.plant().type_of(program),
    ) else {
        return Ok(());
    };
    let mut number: u16 = 0;
    for step in program_type.chart.steps.as_slice() {
        show_step(alloc, &view, StepId(number), step.name.spelling(), shown)?;
        number = number.saturating_add(1);
    }
    Ok(())
}

// The Q and the A of an action.
fn show_action(
    alloc: Global,
    view: &ProgramView<'_>,
    action: ActionNumber,
    name: &[u8],
    shown: &mut Vec<Reading>,
) -> Result<(), AllocError> {
    if action.0 >= view.actions() {
        return Ok(());
    }
    let control = view.q(action);
    shown.push(shown_flag(alloc, dotted(alloc, name, b"Q")?, control)?)?;
    let executed = view.executed(action);
    shown.push(shown_flag(alloc, dotted(alloc, name, b"A")?, executed)?)?;
    Ok(())
}

// The actions of a program instance.
fn shown_actions(
    alloc: Global,
    session: &Session,
    program: ProgId,
    shown: &mut Vec<Reading>,
) -> Result<(), AllocError> {
    let resource = session.debugger().resource();
    let Some(view) = view_of(resource, program) else {
        return Ok(());
    };
    let names = session.plant().names(program);
    for number in 0..view.actions() {
        let action = ActionNumber(number);
        let name = view.tables().action_name(&names, action);
        show_action(alloc, &view, action, name, shown)?;
    }
    Ok(())
}

// Whether all steps before a transition are active (2.6.3).
fn is_enabled(view: &ProgramView<'_>, transition: &Transition) -> bool {
    for step in transition.preceding.as_slice() {
        if !is_active(view, *step) {
            return false;
        }
    }
    true
}

// Puts at the end what the condition of a transition evaluates to now, and its text.
fn append_condition(
    out: &mut Vec<u8>,
    view: &ProgramView<'_>,
    transition: &Transition,
) -> Result<(), AllocError> {
    let expr = transition.condition.expr();
    let mut ticks = Ticks::new();
    match eval(expr, view, &mut ticks) {
        Ok(value) => append_value(out, value)?,
        Err(fault) => append(out, ScanFault::Expression(fault).name())?,
    }
    append(out, b": ")?;
    let plant = view.plant();
    let program = view.instance();
    if list_expr(plant, program, expr, out).is_err() {
        return Err(AllocError);
    }
    Ok(())
}

/// Puts at the end the number of a transition, counted from 0 here and from 1 there, and its name, if it has one. The one error is that
/// memory was refused.
pub fn append_transition_name(
    out: &mut Vec<u8>,
    number: usize,
    transition: &Transition,
) -> Result<(), AllocError> {
    append_number(out, (number as u64).saturating_add(1))?;
    if let Some(name) = &transition.name {
        append(out, b" ")?;
        append(out, name.spelling())?;
    }
    Ok(())
}

// A transition with its condition.
fn shown_transition(
    alloc: Global,
    view: &ProgramView<'_>,
    number: usize,
    transition: &Transition,
) -> Result<Reading, AllocError> {
    let mut name = Vec::new(alloc);
    append_transition_name(&mut name, number, transition)?;
    let mut value = Vec::new(alloc);
    if is_enabled(view, transition) {
        append(&mut value, b"enabled, ")?;
    } else {
        append(&mut value, b"not enabled, ")?;
    }
    append_condition(&mut value, view, transition)?;
    Ok(Reading {
        name,
        value,
        kind: "",
    })
}

// The transitions of a program instance.
fn shown_transitions(
    alloc: Global,
    session: &Session,
    program: ProgId,
    shown: &mut Vec<Reading>,
) -> Result<(), AllocError> {
    let resource = session.debugger().resource();
    let (Some(view), Some(program_type)) = (
        view_of(resource, program),
        session.plant().type_of(program),
    ) else {
        return Ok(());
    };
    let transitions = program_type.chart.transitions.as_slice();
    for (number, transition) in transitions.iter().enumerate() {
        shown.push(shown_transition(alloc, &view, number, transition)?)?;
    }
    Ok(())
}

/// What a group of a program instance reads after the commands so far, in text order. The one error is that memory was refused.
pub fn shown(
    alloc: Global,
    session: &Session,
    program: ProgId,
    group: Group,
) -> Result<Vec<Reading>, AllocError> {
    let mut found = Vec::new(alloc);
    match group {
        Group::Inputs | Group::Outputs | Group::Globals => {
            shown_globals(alloc, session, group, &mut found)?;
        }
        Group::Locals => shown_locals(alloc, session, program, &mut found)?,
        Group::Steps => shown_steps(alloc, session, program, &mut found)?,
        Group::Actions => shown_actions(alloc, session, program, &mut found)?,
        Group::Transitions => shown_transitions(alloc, session, program, &mut found)?,
    }
    Ok(found)
}

/// The variable of a group with this name, as scripts name it: a global one by its name, one of the program instance's own behind it and a
/// dot. None where the group is none of variables, or has none of this name.
pub fn variable_in(session: &Session, program: ProgId, group: Group, name: &[u8]) -> Option<VarId> {
    match group {
        Group::Inputs | Group::Outputs | Group::Globals => session.plant().find_global(name),
        Group::Locals => find_local(session.plant(), program, name),
        Group::Steps | Group::Actions | Group::Transitions => None,
    }
}

/// Puts at the end the name by which a script names a variable. The one error is that memory was refused.
pub fn append_script_name(
    out: &mut Vec<u8>,
    session: &Session,
    id: VarId,
) -> Result<(), AllocError> {
    append_image_name(out, session.plant(), id)
}

/// Whether a variable is located at an input (2.4.1.1).
pub fn is_input(session: &Session, id: VarId) -> bool {
    match session.plant().variable(id) {
        Some(variable) => group_of(variable) == Group::Inputs,
        None => false,
    }
}

/// What a variable reads and whether it is forced, as text. The one error is that memory was refused.
pub fn variable_text(alloc: Global, session: &Session, id: VarId) -> Result<Vec<u8>, AllocError> {
    match variable_reads(session.debugger().resource(), id) {
        Some((value, forced)) => reading_text(alloc, value, forced.is_some()),
        None => Ok(Vec::new(alloc)),
    }
}

/// Whether a variable is forced.
pub fn is_forced(session: &Session, id: VarId) -> bool {
    match variable_reads(session.debugger().resource(), id) {
        Some((_, forced)) => forced.is_some(),
        None => false,
    }
}

/// Puts at the end a step and its time, as in a frame. The one error is that memory was refused.
pub fn append_step_time(
    out: &mut Vec<u8>,
    view: &ProgramView<'_>,
    step: StepId,
    name: &[u8],
) -> Result<(), AllocError> {
    append(out, name)?;
    if usize::from(step.0) < view.steps() {
        append(out, b" ")?;
        append_time(out, view.elapsed(step))?;
    }
    Ok(())
}
