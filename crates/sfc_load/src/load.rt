//! Trees to plants: names are looked up, types and limits are checked.
ghost use Rattle.sfc_text.specs.Trees.{source_of};
ghost use Rattle.sfc_program.specs.sfc_variables.Checks.{Loads};
ghost use Rattle.sfc_load.specs.Built.{source_check, plant_of};

use crate::assembly::{assemble, load_parts};
use crate::sfc_check::placed_error::PlacedLoadError;
use sfc_events::load_error::LoadError;
use sfc_plant::plant::Plant;
use sfc_text::tree::Source;
use std::alloc::Global;

/// The plant that the trees of a text are, as `load` answers it, where a fault has its place too: the name, the location, the
/// literal or the operator that is refused; the first that is too much; the name of a program type without an initial step.
pub fn load_with_place(alloc: Global, source: &Source) -> Result<Plant, PlacedLoadError>
    ensures { Loads (λ plant. plant) result (source_check (source_of source.now)) (plant_of (source_of source.now)) }
{
    let parts = load_parts(alloc, source)?;
    let plant = assemble(alloc, source, parts)?;
    Ok(plant)
}

/// The plant that the trees of a text are (2.4 to 2.7).
///
/// It answers the first fault in this order: the global variables; the number of tasks, the tasks; the program types,
/// each with its limits, variables, names, an initial step, associations, transitions and bodies; the number of
/// instances, the instances; the number of variables, equal locations. `Memory` is answered where memory was refused.
/// The source is not changed.
pub fn load(alloc: Global, source: &Source) -> Result<Plant, LoadError>
    ensures { Loads (λ plant. plant) result (source_check (source_of source.now)) (plant_of (source_of source.now)) }
{
    match load_with_place(alloc, source) {
        Ok(plant) => Ok(plant),
        Err(fault) => Err(fault.error()),
    }
}
