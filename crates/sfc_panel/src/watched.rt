//! Which variables are shown.

ghost use Rattle.std.specs.Prelude.{◌≡◌, ◌++◌, ◌<◌, Some, true, IfErr, IfOk, OnOk, length, map, option_map, slice_get};
ghost use Rattle.sfc_output.specs.sfc_core.Agreement.{plant_of};
ghost use Rattle.sfc_panel.specs.Watched as rules;
ghost use Rattle.sfc_panel.specs.declared.watched.WatchError.TheVariants.{Memory};

use crate::sfc_core::resource::Resource;
use sfc_base::ids::VarId;
use sfc_base::location::{Area, Location};
use sfc_plant::plant::Plant;
use sfc_plant::variable::Variable;
use std::alloc::{AllocError, AllocFailed, Global};

/// Why no variables are picked.
#[derive(Clone, Copy, Debug, PartialEq, Eq)]
pub enum WatchError {
    /// The name in this place, counted from 0, is that of no variable.
    NoVariable(usize),
    /// Memory was refused.
    Memory,
}

impl From<AllocError> for WatchError {
    ghost from_gives = { λ _ error. error ≡ Memory };

    fn from(_error: AllocError) -> WatchError {
        WatchError::Memory
    }
}

impl<T: Drop> From<AllocFailed<T>> for WatchError {
    ghost from_gives = { λ _ error. error ≡ Memory };

    fn from(_error: AllocFailed<T>) -> WatchError {
        WatchError::Memory
    }
}

// Whether something lies among the outputs (2.4.1.1).
fn lies_in_outputs(location: &Option<Location>) -> bool
    ensures { result ≡ rules.lies_in_outputs location.now }
{
    match location {
        Some(location) => location.area() == Area::Output,
        None => false,
    }
}

// Whether there is such a variable, and it is an output (2.4.1.1).
fn is_output(variable: Option<&Variable>) -> bool
    ensures { result ≡ rules.is_output (option_map (λ it. it.now) variable.entry) }
{
    match variable {
        Some(variable) => lies_in_outputs(&variable.location),
        None => false,
    }
}

// A variable, where it is an output.
fn push_output(plant: &Plant, ids: &mut Vec<VarId>, k: usize) -> Result<(), AllocError>
    requires { k < 65536 }
    ensures { OnOk result (ids.new.items ≡ ids.old.items ++ rules.output_at plant.now k) }
{
    let id = VarId(k as u16);
    if is_output(plant.variable(id)) {
        ids.push(id)?;
    }
    Ok(())
}

// All outputs, in their order.
fn push_outputs(resource: &Resource, ids: &mut Vec<VarId>) -> Result<(), AllocError>
    ensures { OnOk result (ids.new.items ≡ ids.old.items ++ rules.outputs_if true (plant_of resource.now)) }
{
    for k in 0..resource.variables() {
        push_output(resource.plant(), ids, k)?;
    }
    Ok(())
}

// The variable of the k-th name, counted from 0, where there are both.
fn named_at(plant: &Plant, names: &[Vec<u8>], k: usize) -> Option<VarId>
    ensures { result ≡ rules.named_at plant.now (slice_get names.now k) }
{
    match names.get(k) {
        Some(name) => plant.find_variable(name),
        None => None,
    }
}

// The variables of all names.
fn push_named(plant: &Plant, names: &[Vec<u8>], ids: &mut Vec<VarId>) -> Result<(), WatchError>
    ensures named { OnOk result (map Some ids.new.items ≡ map Some ids.old.items ++ rules.named_to plant.now names.now (length names.now)) }
    ensures unknown { IfErr result (λ error. rules.IsUnknown plant.now names.now error) }
{
    for k in 0..names.len() {
        match named_at(plant, names, k) {
            Some(id) => ids.push(id)?,
            None => return Err(WatchError::NoVariable(k)),
        }
    }
    Ok(())
}

/// The variables that are shown: the outputs (2.4.1.1), where they are wanted, in their order, and then those of these names, `NAME` for
/// a global and `INSTANCE.NAME` for a local of a program instance, in any case. `NoVariable` is answered for the first name that is none,
/// `Memory` where memory was refused.
pub fn shown_variables(
    alloc: Global,
    resource: &Resource,
    outputs: bool,
    names: &[Vec<u8>],
) -> Result<Vec<VarId>, WatchError>
    ensures shown { IfOk result (λ ids. map Some ids.items ≡ rules.shown_variables outputs (plant_of resource.now) names.now) }
    ensures unknown { IfErr result (λ error. rules.IsUnknown (plant_of resource.now) names.now error) }
{
    let mut ids = Vec::new(alloc);
    if outputs {
        push_outputs(resource, &mut ids)?;
    }
    push_named(resource.plant(), names, &mut ids)?;
    Ok(ids)
}
