//! Where the fault of a program instance is, in words.

ghost use Rattle.std.specs.Prelude.{◌≡◌, ◌++◌, List, codes, slice_get, OnOk};
ghost use Rattle.sfc_plant.specs.Finding.{chart_of};
ghost use Rattle.sfc_debug.specs.sfc_image.Changes.{Change};
ghost use Rattle.sfc_debug.specs.sfc_instance.Life.{InstanceState};
ghost use Rattle.sfc_debug.specs.sfc_instance.Views.{plant_in, instance_in, Shows};
ghost use Rattle.sfc_output.specs.FaultPlaces as output;
ghost use Rattle.sfc_output.specs.Programs.{transition_text};

use crate::sfc_instance::fault_place::FaultPlace;
use crate::sfc_instance::program_view::ProgramView;
use crate::sfc_instance::scan_fault::ScanFault;
use sfc_base::ids::{ProgId, TransitionId};
use sfc_base::name::Name;
use sfc_page::append::{append, append_number};
use sfc_plant::plant::Plant;
use std::alloc::AllocError;

// A name behind a blank, where there is one.
fn append_behind(out: &mut Vec<u8>, name: &Option<Name>) -> Result<(), AllocError>
    ensures { OnOk result (out.new.items ≡ out.old.items ++ output.name_behind name.now) }
{
    match name {
        Some(name) => {
            append(out, b" ")?;
            append(out, name.spelling())
        }
        None => Ok(()),
    }
}

// The name of a transition of a program instance, behind a blank, where it has one.
fn append_transition_name(
    out: &mut Vec<u8>,
    plant: &Plant,
    program: ProgId,
    transition: TransitionId,
) -> Result<(), AllocError>
    ensures { OnOk result (out.new.items ≡ out.old.items
        ++ output.name_of_transition (slice_get (chart_of plant.now program).transitions transition.0)) }
{
    let Some(program_type) = plant.type_of(program) else {
        return Ok(());
    };
    let transitions = program_type.chart.transitions.as_slice();
    match transitions.get(transition.0 as usize) {
        Some(transition) => append_behind(out, &transition.name),
        None => Ok(()),
    }
}

// In which condition it is.
fn append_condition(
    out: &mut Vec<u8>,
    plant: &Plant,
    program: ProgId,
    transition: TransitionId,
) -> Result<(), AllocError>
    ensures { OnOk result (out.new.items ≡ out.old.items ++ (codes " in the condition of TRANSITION " ++ transition_text transition.0
        ++ output.name_of_transition (slice_get (chart_of plant.now program).transitions transition.0))) }
{
    append(out, b" in the condition of TRANSITION ")?;
    append_number(out, u64::from(transition.0) + 1)?;
    append_transition_name(out, plant, program, transition)
}

// In which statement of an action of this name it is.
fn append_statement(out: &mut Vec<u8>, name: &[u8], statement: usize) -> Result<(), AllocError>
    ensures { OnOk result (out.new.items ≡ out.old.items ++ (codes " in statement " ++ output.statement_text statement ++ codes " of action "
        ++ name.now)) }
{
    append(out, b" in statement ")?;
    append_number(out, (statement as u64).saturating_add(1))?;
    append(out, b" of action ")?;
    append(out, name)
}

// Where it is.
fn append_place(
    out: &mut Vec<u8>,
    view: &ProgramView<'_>,
    place: Option<FaultPlace>,
) -> Result<(), AllocError>
    ensures { OnOk result (out.new.items ≡ out.old.items ++ output.known_place (plant_in view.now) (instance_in view.now) place) }
{
    let (plant, program) = (view.plant(), view.instance());
    let names = plant.names(program);
    match place {
        None => Ok(()),
        Some(FaultPlace::Transition(transition)) => {
            append_condition(out, plant, program, transition)
        }
        Some(FaultPlace::Action(action)) => {
            append(out, b" in the control of action ")?;
            append(out, view.tables().action_name(&names, action))
        }
        Some(FaultPlace::Statement { action, statement }) => {
            append_statement(out, names.action(action), statement)
        }
    }
}

// The line of an instance that this fault ended.
fn append_ended(
    out: &mut Vec<u8>,
    view: &ProgramView<'_>,
    fault: ScanFault,
    place: Option<FaultPlace>,
) -> Result<(), AllocError>
    ensures { OnOk result (out.new.items ≡ out.old.items
        ++ output.ended_line (plant_in view.now) (instance_in view.now) fault place) }
{
    let name = view.plant().instance_name(view.instance());
    append(out, b"; ")?;
    append(out, name)?;
    append(out, b" ended with ")?;
    append(out, fault.name())?;
    append_place(out, view, place)?;
    append(out, b", and isn't scanned until RESET ")?;
    append(out, name)?;
    append(out, b"\n")
}

/// Puts at the end the line of a program instance that a fault has ended: which one it is, and where: in the condition of a transition, in
/// the control block of an action, or in a statement of an action's body, counted from 1 (2.6.3, 2.6.4.1, 2.6.4.5); nothing where no fault
/// stands. The one error is that memory was refused; then a front of it may stand there.
pub fn append_faulted(out: &mut Vec<u8>, view: &ProgramView<'_>) -> Result<(), AllocError>
    ensures { (changes : List Change) (instance_state : InstanceState) → Shows view.now changes instance_state →
        OnOk result (out.new.items ≡ out.old.items
        ++ output.faulted_line (plant_in view.now) (instance_in view.now) instance_state) }
{
    match view.fault() {
        Some(fault) => append_ended(out, view, fault, view.fault_place()),
        None => Ok(()),
    }
}
