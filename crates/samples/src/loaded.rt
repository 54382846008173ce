//! A chart's text as a plant.

use sfc_load::load::load;
use sfc_plant::plant::Plant;
use sfc_text::read::read;
use std::alloc::Global;
use std::test::Fail;

/// What the text is loaded as.
pub fn plant_of(alloc: Global, text: &[u8]) -> Result<Plant, Fail> {
    let source = read(alloc, text)?;
    Ok(load(alloc, &source)?)
}
