//! What the window on a program instance shows, as marks of its drawing.

ghost use Rattle.std.specs.Prelude.{◌≡◌, ◌<◌, ◌++◌, ◌&&◌, All, IfOk, List, OnOk, length, map, slice_get};
ghost use Rattle.std.specs.List.{list_all, range_with_len};
ghost use Rattle.std.specs.Option.{option_to_list};
ghost use Rattle.sfc_base.specs.declared.references.StepId.{StepId};
ghost use Rattle.sfc_events.specs.History.{History};
ghost use Rattle.sfc_replay.specs.sfc_core.Agreement.{Agrees, plant_of};
ghost use Rattle.sfc_replay.specs.sfc_core.PlantState.{state_of};
ghost use Rattle.sfc_replay.specs.sfc_image.Changes.{Change};
ghost use Rattle.sfc_replay.specs.sfc_instance.Answers.{is_step_active};
ghost use Rattle.sfc_replay.specs.sfc_instance.Life.{InstanceState};
ghost use Rattle.sfc_replay.specs.sfc_instance.ProgramScan.{enabled};
ghost use Rattle.sfc_replay.specs.sfc_instance.Views.{Shows, plant_in, tables_in};
ghost use Rattle.sfc_replay.specs.sfc_tables.Tables.{sides_at};
ghost use Rattle.sfc_svg.specs.Marking as told;

use crate::force::{Force, append_forces, forces_of, has_action};
use crate::sfc_core::resource::Resource;
use crate::sfc_instance::program_view::ProgramView;
use crate::sfc_instance::scan_fault::ScanFault;
use crate::sfc_tables::step_action::StepAction;
use sfc_base::ids::{ActionNumber, ProgId, TransitionId};
use sfc_base::items::Items;
use sfc_base::references::StepId;
use sfc_drawing::drawn::{ActionMark, TransitionMark};
use sfc_drawing::marks::{Marks, StepState};
use sfc_page::append::{append, append_number};
use sfc_plant::association::Target;
use std::alloc::{AllocError, Global};

// For how long a step is active at the latest scan, if it is (2.6.2).
fn active_for(view: &ProgramView<'_>, step: StepId) -> Option<i64>
    requires { step.0 < length (tables_in view.now).initial }
    ensures { (changes : List Change) (state : InstanceState) → Shows view.now changes state →
        result ≡ told.active_told (tables_in view.now) state step.0 }
{
    if view.active(step) {
        Some(view.elapsed(step))
    } else {
        None
    }
}

// ---- transitions

// Whether these steps are all active.
fn are_active(view: &ProgramView<'_>, steps: &[StepId]) -> bool
    requires { All (λ (step : StepId). step.0 < length (tables_in view.now).initial) steps.now }
    ensures { (changes : List Change) (state : InstanceState) → Shows view.now changes state →
        result ≡ list_all (λ (step : StepId). is_step_active (tables_in view.now) state step.0) steps.now }
{
    for step in steps {
        if !view.active(*step) {
            return false;
        }
    }
    true
}

// The steps before a transition.
fn preceding<'a>(view: &ProgramView<'a>, transition: TransitionId) -> &'a [StepId]
    requires { transition.0 < length (tables_in view.now).sides }
    ensures value { result.now ≡ (sides_at (tables_in view.now).sides transition).preceding }
    ensures within { All (λ (step : StepId). step.0 < length (tables_in view.now).initial) result.now }
{
    let tables = view.tables();
    let _steps = tables.steps();
    tables.preceding(transition)
}

// Whether all steps before a transition are active (2.6.3).
fn is_enabled(view: &ProgramView<'_>, transition: TransitionId) -> bool
    requires { transition.0 < length (tables_in view.now).sides }
    ensures { (changes : List Change) (state : InstanceState) → Shows view.now changes state →
        result ≡ enabled (tables_in view.now) state.life transition.0 }
{
    are_active(view, preceding(view, transition))
}

// What is told of a transition.
fn transition_mark(view: &ProgramView<'_>, transition: TransitionId) -> TransitionMark
    requires { transition.0 < length (tables_in view.now).sides }
    ensures { (changes : List Change) (state : InstanceState) → Shows view.now changes state →
        result ≡ told.transition_told (tables_in view.now) state transition.0 }
{
    TransitionMark {
        is_enabled: is_enabled(view, transition),
        is_cleared: view.cleared(transition),
        is_never: false,
    }
}

// What is told of the transitions.
fn transitions_of(
    alloc: Global,
    view: &ProgramView<'_>,
) -> Result<Items<TransitionMark>, AllocError>
    ensures { (changes : List Change) (state : InstanceState) → Shows view.now changes state → IfOk result (λ transitions. transitions
        ≡ map (told.transition_told (tables_in view.now) state) (range_with_len 0 (length (tables_in view.now).sides))) }
{
    let mut transitions = Vec::new(alloc);
    for number in 0..view.tables().transitions() {
        let mark = transition_mark(view, TransitionId(number as u16));
        transitions.push(mark)?;
    }
    Ok(Items::from_vec(transitions))
}

// ---- actions

// Whether an action is one of the chart's, and the latest scan executed it (2.6.4.5).
fn is_executed(view: &ProgramView<'_>, action: ActionNumber) -> bool
    ensures { (changes : List Change) (state : InstanceState) → Shows view.now changes state →
        result ≡ told.is_executed (tables_in view.now) state action.0 }
{
    action.0 < view.actions() && view.executed(action)
}

// What an action is; none beyond the last.
fn target_of(view: &ProgramView<'_>, action: ActionNumber) -> Option<Target>
    ensures { result ≡ slice_get (tables_in view.now).actions action.0 }
{
    if action.0 < view.actions() {
        Some(view.tables().target(action))
    } else {
        None
    }
}

// What is told of the body of an action that is executed or not, if it has one.
fn body_of(is_executed: bool, target: Option<Target>) -> Option<ActionMark>
    ensures { result ≡ told.body_mark is_executed target }
{
    match target {
        None | Some(Target::Boolean(_)) => None,
        Some(Target::Declared(_)) => Some(ActionMark {
            is_executed,
            is_forced: false,
            is_never: false,
        }),
    }
}

// One more, if there is one.
fn push_some(marks: &mut Vec<ActionMark>, mark: Option<ActionMark>) -> Result<(), AllocError>
    ensures { OnOk result (marks.new.items ≡ marks.old.items ++ option_to_list mark) }
{
    match mark {
        None => Ok(()),
        Some(mark) => {
            marks.push(mark)?;
            Ok(())
        }
    }
}

// What is told of the bodies of declared actions.
fn bodies_of(alloc: Global, view: &ProgramView<'_>) -> Result<Items<ActionMark>, AllocError>
    ensures { (changes : List Change) (state : InstanceState) → Shows view.now changes state →
        IfOk result (λ bodies. bodies ≡ told.bodies_told (tables_in view.now) state) }
{
    let mut bodies = Vec::new(alloc);
    for number in 0..view.actions() {
        let action = ActionNumber(number);
        let body = body_of(is_executed(view, action), target_of(view, action));
        push_some(&mut bodies, body)?;
    }
    Ok(Items::from_vec(bodies))
}

// ---- steps

// Both are true.
fn both(first: bool, second: bool) -> bool
    ensures { result ≡ first && second }
{
    first && second
}

// What is told of an association of a step.
fn row_mark(
    view: &ProgramView<'_>,
    forces: &[Force],
    step: StepId,
    association: &StepAction,
) -> ActionMark
    requires { step.0 < length (tables_in view.now).initial }
    ensures { (changes : List Change) (state : InstanceState) → Shows view.now changes state →
        result ≡ told.row_told (tables_in view.now) state forces.now step.0 association.now }
{
    let action = association.action;
    ActionMark {
        is_executed: both(view.active(step), is_executed(view, action)),
        is_forced: has_action(forces, target_of(view, action)),
        is_never: false,
    }
}

// What is told of these associations of a step.
fn rows_of(
    alloc: Global,
    view: &ProgramView<'_>,
    forces: &[Force],
    step: StepId,
    associations: &[StepAction],
) -> Result<Items<ActionMark>, AllocError>
    requires { step.0 < length (tables_in view.now).initial }
    ensures { (changes : List Change) (state : InstanceState) → Shows view.now changes state →
        IfOk result (λ rows. rows ≡ map (told.row_told (tables_in view.now) state forces.now step.0) associations.now) }
{
    let mut rows = Vec::new(alloc);
    for association in associations {
        let mark = row_mark(view, forces, step, association);
        rows.push(mark)?;
    }
    Ok(Items::from_vec(rows))
}

// What is told of a step.
fn state_of(
    alloc: Global,
    view: &ProgramView<'_>,
    forces: &[Force],
    step: StepId,
) -> Result<StepState, AllocError>
    requires { step.0 < length (tables_in view.now).initial }
    ensures { (changes : List Change) (state : InstanceState) → Shows view.now changes state →
        IfOk result (λ told_of. told_of ≡ told.step_told (tables_in view.now) state forces.now step.0) }
{
    let associations = view.tables().of_step(step);
    let rows = rows_of(alloc, view, forces, step, associations)?;
    Ok(StepState {
        active: active_for(view, step),
        is_never: false,
        rows,
    })
}

// What is told of the steps.
fn steps_of(
    alloc: Global,
    view: &ProgramView<'_>,
    forces: &[Force],
) -> Result<Items<StepState>, AllocError>
    ensures { (changes : List Change) (state : InstanceState) → Shows view.now changes state → IfOk result (λ steps. steps
        ≡ map (told.step_told (tables_in view.now) state forces.now) (range_with_len 0 (length (tables_in view.now).initial))) }
{
    let mut steps = Vec::new(alloc);
    for number in 0..view.tables().steps() {
        let state = state_of(alloc, view, forces, StepId(number as u16))?;
        steps.push(state)?;
    }
    Ok(Items::from_vec(steps))
}

// ---- all of it

fn append_fault(out: &mut Vec<u8>, fault: Option<ScanFault>) -> Result<(), AllocError>
    ensures { OnOk result (out.new.items ≡ out.old.items ++ told.fault_told fault) }
{
    match fault {
        None => Ok(()),
        Some(fault) => {
            append(out, b", fault ")?;
            append(out, fault.name())
        }
    }
}

// How many scans its life has had, its fault, and what is forced.
fn note_of(alloc: Global, view: &ProgramView<'_>, forces: &[Force]) -> Result<Items<u8>, AllocError>
    ensures { (changes : List Change) (state : InstanceState) → Shows view.now changes state →
        IfOk result (λ note. note ≡ told.note_told (plant_in view.now) state forces.now) }
{
    let mut note = Vec::new(alloc);
    append(&mut note, b", scans ")?;
    append_number(&mut note, view.scans())?;
    append_fault(&mut note, view.fault())?;
    append_forces(&mut note, view.plant(), forces)?;
    Ok(Items::from_vec(note))
}

// What the window shows, where this is forced.
fn marks_in(alloc: Global, view: &ProgramView<'_>, forces: &[Force]) -> Result<Marks, AllocError>
    ensures { (changes : List Change) (state : InstanceState) → Shows view.now changes state →
        IfOk result (λ marks. marks ≡ told.marks_in (plant_in view.now) (tables_in view.now) state forces.now) }
{
    Ok(Marks {
        note: note_of(alloc, view, forces)?,
        steps: steps_of(alloc, view, forces)?,
        transitions: transitions_of(alloc, view)?,
        bodies: bodies_of(alloc, view)?,
    })
}

/// What the window on a program instance of a resource shows: which steps are active and for how long, which transitions are enabled and
/// which the latest scan cleared, which actions it executed, what is forced, how many scans there were, and the fault. The instance is one
/// of the plant's. The one error is that memory was refused.
pub fn marks_of(alloc: Global, resource: &Resource, instance: ProgId) -> Result<Marks, AllocError>
    requires { instance.0 < length (plant_of resource.now).instances }
    ensures { (h : History) → Agrees resource.now h → IfOk result (λ marks.
        marks ≡ told.marks_told (plant_of resource.now) (state_of (plant_of resource.now) h) instance) }
{
    let view = resource.program(instance);
    let forces = forces_of(alloc, resource, instance)?;
    marks_in(alloc, &view, &forces)
}
