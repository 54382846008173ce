//! Which variables are inputs (2.4.1.1).

ghost use Rattle.std.specs.Prelude.{◌≡◌, slice_get};
ghost use Rattle.sfc_plant.specs.Image.{image_variables};
ghost use Rattle.sfc_core.specs.Verdict as verdict;

use sfc_base::ids::VarId;
use sfc_base::location::{Area, Location};
use sfc_plant::plant::Plant;

// Whether it is a location at %I.
fn is_at_input(location: &Option<Location>) -> bool
    ensures { result ≡ verdict.is_located_input location.now }
{
    match location {
        Some(location) => matches!(location.area(), Area::Input),
        None => false,
    }
}

/// Whether there is a variable of this number, and it is located at %I.
pub fn is_input(plant: &Plant, id: VarId) -> bool
    ensures { result ≡ verdict.is_input (slice_get (image_variables plant.now) id.0) }
{
    match plant.variable(id) {
        Some(variable) => is_at_input(&variable.location),
        None => false,
    }
}
