//! What is forced of a program instance.

ghost use Rattle.std.specs.Prelude.{◌≡◌, ◌<◌, ◌++◌, IfOk, OnOk, flat_map};
ghost use Rattle.std.specs.Option.{option_to_list};
ghost use Rattle.sfc_events.specs.History.{History};
ghost use Rattle.sfc_replay.specs.sfc_core.Agreement.{Agrees, plant_of};
ghost use Rattle.sfc_replay.specs.sfc_core.PlantState.{state_of};
ghost use Rattle.sfc_replay.specs.sfc_image.Values.{variable_count};
ghost use Rattle.sfc_replay.specs.sfc_tables.Actions.{same_variable};
ghost use Rattle.sfc_svg.specs.Forces as told;

use crate::sfc_core::resource::Resource;
use crate::sfc_output::naming::append_image_name;
use sfc_base::ids::{ProgId, VarId};
use sfc_base::references::Variable;
use sfc_base::value::Value;
use sfc_page::append::{append, append_value};
use sfc_plant::association::Target;
use sfc_plant::image_variable::ImageVariable;
use sfc_plant::plant::Plant;
use std::alloc::{AllocError, Global};

/// A variable of a program instance, and the value to which it is forced.
#[derive(Clone, Copy, Debug, PartialEq, Eq)]
pub struct Force {
    /// Its number in the image.
    pub id: VarId,
    /// What its program has it as.
    pub variable: Variable,
    pub value: Value,
}

// What a variable of the image is in the program of this instance, if it is a global one or one of its locals.
fn own_variable(instance: ProgId, variable: Option<ImageVariable>) -> Option<Variable>
    ensures { result ≡ told.own_variable instance variable }
{
    match variable {
        None => None,
        Some(ImageVariable::Global(id)) => Some(Variable::Global(id)),
        Some(ImageVariable::Local(owner, id)) => {
            if owner.0 == instance.0 {
                Some(Variable::Local(id))
            } else {
                None
            }
        }
    }
}

// The variable with the value to which it is forced, if it is.
fn with_value(id: VarId, variable: Variable, forced: Option<Value>) -> Option<Force>
    ensures { result ≡ told.with_value id variable forced }
{
    match forced {
        None => None,
        Some(value) => Some(Force {
            id,
            variable,
            value,
        }),
    }
}

// The same, if it is one of the program.
fn with_variable(id: VarId, variable: Option<Variable>, forced: Option<Value>) -> Option<Force>
    ensures { result ≡ told.with_variable id variable forced }
{
    match variable {
        None => None,
        Some(variable) => with_value(id, variable, forced),
    }
}

// The variable of the image with this number, if it is one of the instance's program and forced.
fn force_of(resource: &Resource, instance: ProgId, id: VarId) -> Option<Force>
    requires { id.0 < variable_count (plant_of resource.now) }
    ensures { (h : History) → Agrees resource.now h →
        result ≡ told.force_of (plant_of resource.now) (state_of (plant_of resource.now) h).changes instance id }
{
    let variable = own_variable(instance, resource.plant().image_variable(id));
    with_variable(id, variable, resource.forced(id))
}

// One more, if there is one.
fn push_some(forces: &mut Vec<Force>, force: Option<Force>) -> Result<(), AllocError>
    ensures { OnOk result (forces.new.items ≡ forces.old.items ++ option_to_list force) }
{
    match force {
        None => Ok(()),
        Some(force) => {
            forces.push(force)?;
            Ok(())
        }
    }
}

/// The variables of an instance's program that are forced, in the order of the image. The one error is that memory was refused.
pub fn forces_of(
    alloc: Global,
    resource: &Resource,
    instance: ProgId,
) -> Result<Vec<Force>, AllocError>
    ensures { (h : History) → Agrees resource.now h → IfOk result (λ forces.
        forces.items ≡ told.forces_of (plant_of resource.now) (state_of (plant_of resource.now) h).changes instance) }
{
    let mut forces = Vec::new(alloc);
    for number in 0..resource.variables() {
        let force = force_of(resource, instance, VarId(number as u16));
        push_some(&mut forces, force)?;
    }
    Ok(forces)
}

// Whether two are one variable.
fn is_same(a: Variable, b: Variable) -> bool
    ensures { result ≡ same_variable a b }
{
    match (a, b) {
        (Variable::Global(a), Variable::Global(b)) => a.0 == b.0,
        (Variable::Local(a), Variable::Local(b)) => a.0 == b.0,
        (Variable::Global(_), Variable::Local(_)) | (Variable::Local(_), Variable::Global(_)) => {
            false
        }
    }
}

// Whether a variable is one of these.
fn has_variable(forces: &[Force], variable: Variable) -> bool
    ensures { result ≡ told.has_variable forces.now variable }
{
    for force in forces {
        if is_same(force.variable, variable) {
            return true;
        }
    }
    false
}

/// Whether an action is one of these variables (2.6.4.1).
pub fn has_action(forces: &[Force], action: Option<Target>) -> bool
    ensures { result ≡ told.has_action forces.now action }
{
    match action {
        None | Some(Target::Declared(_)) => false,
        Some(Target::Boolean(variable)) => has_variable(forces, variable),
    }
}

// What is said of one of them.
fn append_force(out: &mut Vec<u8>, plant: &Plant, force: &Force) -> Result<(), AllocError>
    ensures { OnOk result (out.new.items ≡ out.old.items ++ told.force_said plant.now force.now) }
{
    append_image_name(out, plant, force.id)?;
    append(out, b" := ")?;
    append_value(out, force.value)
}

// The same of one behind another.
fn append_further(out: &mut Vec<u8>, plant: &Plant, force: &Force) -> Result<(), AllocError>
    ensures { OnOk result (out.new.items ≡ out.old.items ++ told.further_said plant.now force.now) }
{
    append(out, b", ")?;
    append_force(out, plant, force)
}

// Of those behind the first.
fn append_others(out: &mut Vec<u8>, plant: &Plant, forces: &[Force]) -> Result<(), AllocError>
    ensures { OnOk result (out.new.items ≡ out.old.items ++ flat_map (told.further_said plant.now) forces.now) }
{
    for force in forces {
        append_further(out, plant, force)?;
    }
    Ok(())
}

/// Puts at the end which variables are forced, by the names that scripts have for them, and their values; nothing where there is none. The
/// one error is that memory was refused; then a front of it may stand there.
pub fn append_forces(out: &mut Vec<u8>, plant: &Plant, forces: &[Force]) -> Result<(), AllocError>
    ensures { OnOk result (out.new.items ≡ out.old.items ++ told.forces_said plant.now forces.now) }
{
    match forces.split_first() {
        None => Ok(()),
        Some((first, others)) => {
            append(out, b", forced ")?;
            append_force(out, plant, first)?;
            append_others(out, plant, others)
        }
    }
}
