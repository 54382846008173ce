//! What a plant's variables and a program instance's elements read after the commands so far.

use crate::sfc_core::resource::Resource;
use crate::sfc_instance::program_view::ProgramView;
use sfc_base::ids::{ActionNumber, ProgId, VarId};
use sfc_base::references::StepId;
use sfc_base::value::Value;
use sfc_session::session::Session;

/// The window on a program instance, where there is such a one.
pub fn view_of(resource: &Resource, program: ProgId) -> Option<ProgramView<'_>> {
    if usize::from(program.0) >= resource.plant().instances().len() {
        return None;
    }
    Some(resource.program(program))
}

/// Whether a step is active.
pub fn is_active(view: &ProgramView<'_>, step: StepId) -> bool {
    usize::from(step.0) < view.steps() && view.active(step)
}

/// What a variable of the image reads, and what it is forced to, if it is.
pub fn variable_reads(resource: &Resource, id: VarId) -> Option<(Value, Option<Value>)> {
    if usize::from(id.0) >= resource.variables() {
        return None;
    }
    Some((resource.value(id), resource.forced(id)))
}

/// What a variable of the image reads.
pub fn variable_value(session: &Session, id: VarId) -> Option<Value> {
    match variable_reads(session.debugger().resource(), id) {
        Some((value, _)) => Some(value),
        None => None,
    }
}

/// Whether a step of a program instance is active; None where there is no such step.
pub fn is_step(session: &Session, program: ProgId, step: StepId) -> Option<bool> {
    let view = view_of(session.debugger().resource(), program)?;
    if usize::from(step.0) >= view.steps() {
        return None;
    }
    Some(view.active(step))
}

/// Whether an action of a program instance has Q; None where there is no such action.
pub fn is_action(session: &Session, program: ProgId, action: ActionNumber) -> Option<bool> {
    let view = view_of(session.debugger().resource(), program)?;
    if action.0 >= view.actions() {
        return None;
    }
    Some(view.q(action))
}
