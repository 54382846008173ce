//! What loading checks of the variables of all instances (2.4.1.1).

ghost use Rattle.std.specs.Prelude.{◌≡◌, ◌++◌, length, flat_map, nat_lt, OnOk, IfOk};
ghost use Rattle.sfc_program.specs.sfc_variables.Checks.{Loads, when};
ghost use Rattle.sfc_events.specs.declared.load_error.LoadError.TheVariants as fault;
ghost use Rattle.sfc_events.specs.declared.load_error.Limit.TheVariants as limit;
ghost use Rattle.sfc_program.specs.sfc_variables.Locations as located;
ghost use Rattle.sfc_plant.specs.Image as image;
ghost use Rattle.sfc_plant.specs.Image.{image_of, locations_of, starts_from};
ghost use Rattle.sfc_load.specs.Loading.{image_check};

use crate::sfc_variables::located::repeats;
use sfc_base::limits::VARIABLES;
use sfc_base::location::Location;
use sfc_events::load_error::{Limit, LoadError};
use sfc_plant::image::locals_of;
use sfc_plant::instance::Instance;
use sfc_plant::program_type::ProgramType;
use sfc_plant::variable::Variable;
use std::alloc::{AllocError, Global};

// The number of the first local of each instance, if there are at most 4,096 variables.
fn count_variables(
    alloc: Global,
    globals: &[Variable],
    types: &[ProgramType],
    instances: &[Instance],
) -> Result<Vec<usize>, LoadError>
    ensures { let count : _ = length (image_of globals.now types.now instances.now) in
        Loads (λ starts. starts.items) result (when (nat_lt VARIABLES count) (fault.Limit limit.Variables))
        (starts_from (length globals.now) types.now instances.now) }
{
    if globals.len() > VARIABLES {
        return Err(LoadError::Limit(Limit::Variables));
    }
    let mut starts = Vec::new(alloc);
    let mut count = globals.len();
    let mut rest = instances;
    'instances: while let Some((instance, after)) = rest.split_first() {
        starts.push(count)?;
        let more = locals_of(types, instance).len();
        if more > VARIABLES - count {
            return Err(LoadError::Limit(Limit::Variables));
        }
        count += more;
        rest = after;
    }
    Ok(starts)
}

// The locations of those variables that have one, behind others.
fn add_locations(
    alloc: Global,
    variables: &[Variable],
    locations: &mut Vec<Location>,
) -> Result<(), AllocError>
    ensures { OnOk result (locations.new.items ≡ locations.old.items ++ locations_of variables.now) }
{
    let mut rest = variables;
    'variables: while let Some((variable, after)) = rest.split_first() {
        if let Some(location) = &variable.location {
            locations.push(location.copy(alloc)?)?;
        }
        rest = after;
    }
    Ok(())
}

// The locations of the locals of all instances, behind others.
#[tactic(auto, using(crate::proofs::Locations::more_added))]
fn add_local_locations(
    alloc: Global,
    types: &[ProgramType],
    instances: &[Instance],
    locations: &mut Vec<Location>,
) -> Result<(), AllocError>
    ensures { OnOk result (locations.new.items ≡ locations.old.items ++ locations_of (flat_map (image.locals_of types.now) instances.now)) }
{
    let mut rest = instances;
    'instances: while let Some((instance, after)) = rest.split_first() {
        add_locations(alloc, locals_of(types, instance), locations)?;
        rest = after;
    }
    Ok(())
}

// The locations of all variables that have one.
#[tactic(auto, using(crate::proofs::Locations::more_locations))]
fn all_locations(
    alloc: Global,
    globals: &[Variable],
    types: &[ProgramType],
    instances: &[Instance],
) -> Result<Vec<Location>, AllocError>
    ensures { IfOk result (λ locations. locations.items ≡ locations_of (image_of globals.now types.now instances.now)) }
{
    let mut locations = Vec::new(alloc);
    add_locations(alloc, globals, &mut locations)?;
    add_local_locations(alloc, types, instances, &mut locations)?;
    Ok(locations)
}

/// Refuses more than 4,096 variables, and two at one location (2.4.1.1); else it answers the number of the first local
/// of each instance.
#[tactic(auto, unfolding(crate::specs::Loading::image_check))]
pub(crate) fn check_image(
    alloc: Global,
    globals: &[Variable],
    types: &[ProgramType],
    instances: &[Instance],
) -> Result<Vec<usize>, LoadError>
    ensures { Loads (λ starts. starts.items) result
        (image_check (image_of globals.now types.now instances.now))
        (starts_from (length globals.now) types.now instances.now) }
{
    let starts = count_variables(alloc, globals, types, instances)?;
    let locations = all_locations(alloc, globals, types, instances)?;
    if repeats(&locations) {
        return Err(LoadError::SameLocation);
    }
    Ok(starts)
}
