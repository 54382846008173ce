//! The parts of a plant, in the order of the checks, and the plant of them.

ghost use Rattle.std.specs.Prelude.{◌≡◌, IfOk};
ghost use Rattle.sfc_text.specs.Trees.{source_of};
ghost use Rattle.sfc_program.specs.sfc_variables.Checks.{Loads};
ghost use Rattle.sfc_plant.specs.Sound.{IsPlant};
ghost use Rattle.sfc_load.specs.Built.{source_check, plant_of};
ghost use Rattle.sfc_plant.specs.PlantParts.{AreNamed};
ghost use Rattle.sfc_load.specs.Assembly.Declared.{titles_of, plant_from};

use crate::declaring::load_declarations;
use crate::image_place::check_image_of;
use crate::instances::load_instances;
use crate::sfc_check::placed_error::PlacedLoadError;
use sfc_base::items::Items;
use sfc_plant::parts::Parts;
use sfc_plant::plant::Plant;
use sfc_plant::titles::Titles;
use sfc_text::tree::Source;
use std::alloc::{AllocError, Global};

/// The parts of the plant that a text is, or the first fault.
pub(crate) fn load_parts(alloc: Global, source: &Source) -> Result<Parts, PlacedLoadError>
    ensures loads { Loads (plant_from source.now) result (source_check (source_of source.now)) (plant_of (source_of source.now)) }
    ensures named { IfOk result AreNamed }
{
    let declared = load_declarations(alloc, source)?;
    let (instances, instance_names) = load_instances(
        alloc,
        source.configuration.instances.as_slice(),
        &declared.task_names,
        &declared.type_names,
    )?;
    let starts = check_image_of(
        alloc,
        source,
        declared.globals.as_slice(),
        declared.types.as_slice(),
        &instances,
    )?;
    Ok(Parts {
        declared,
        instances: Items::from_vec(instances),
        instance_names,
        starts: Items::from_vec(starts),
    })
}

// The names that the text gives. The one error is that memory was refused.
fn load_titles(alloc: Global, source: &Source) -> Result<Titles, AllocError>
    ensures { IfOk result (λ titles. titles ≡ titles_of source.now) }
{
    let configuration = source.configuration.name.copy(alloc)?;
    let resource = source.configuration.resource.copy(alloc)?;
    let processor = source.configuration.processor.copy(alloc)?;
    Ok(Titles {
        configuration,
        resource,
        processor,
    })
}

/// The plant of these parts. The one error is that memory was refused.
pub(crate) fn assemble(alloc: Global, source: &Source, parts: Parts) -> Result<Plant, AllocError>
    requires sound { IsPlant (plant_from source.now parts) }
    requires named { AreNamed parts }
    ensures { IfOk result (λ plant. plant ≡ plant_from source.now parts) }
{
    let titles = load_titles(alloc, source)?;
    Ok(Plant::new(titles, parts))
}
