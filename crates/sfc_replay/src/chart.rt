//! Texts to plants.

ghost use Rattle.sfc_replay.specs.Acceptance.{Accepts};

use crate::replay_error::ReplayError;
use crate::sfc_load::load::load;
use sfc_plant::plant::Plant;
use sfc_text::read::read;
use std::alloc::Global;

/// The plant that the bytes of a chart are. `Chart` is answered where they are refused, `Memory` where memory was.
pub fn plant_of_text(alloc: Global, text: &[u8]) -> Result<Plant, ReplayError>
    ensures { Accepts text.now result }
{
    let tree = read(alloc, text)?;
    let plant = load(alloc, &tree)?;
    Ok(plant)
}
