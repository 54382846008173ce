//! Plants and resources as SVG.

ghost use Rattle.std.specs.Prelude.{◌≡◌, ◌<◌, ◌++◌, ℕ, IfErr, IfOk, List, OnOk, Option, length, option_map};
ghost use Rattle.std.specs.Option.{option_to_list};
ghost use Rattle.sfc_drawing.specs.Drawings.{IsMarkedDrawing};
ghost use Rattle.sfc_events.specs.History.{History};
ghost use Rattle.sfc_replay.specs.sfc_core.Agreement.{Agrees, plant_of};
ghost use Rattle.sfc_replay.specs.sfc_core.PlantState.{state_of};
ghost use Rattle.sfc_svg.specs.Drawn as drawn;
ghost use Rattle.sfc_svg.specs.Drawn.{IsDrawingOf, IsUndrawnFor, wanted_of};
ghost use Rattle.sfc_svg.specs.Standing as standing;

use crate::marking::marks_of;
use crate::sfc_core::resource::Resource;
use crate::svg_error::SvgError;
use sfc_base::ids::{ProgId, TypeId};
use sfc_drawing::drawing::{svg_of_instances, svg_of_types};
use sfc_drawing::drawing_error::DrawingError;
use sfc_drawing::marks::Marked;
use sfc_plant::instance::Instance;
use sfc_plant::plant::Plant;
use sfc_replay::replay_error::ReplayError;
use std::alloc::{AllocError, Global};

// The program type of this name, where one is named.
fn wanted_type(plant: &Plant, name: Option<&[u8]>) -> Option<TypeId>
    ensures { result ≡ wanted_of plant.now (option_map (λ name. name.now) name.entry) }
{
    match name {
        None => None,
        Some(name) => plant.find_type(name),
    }
}

// Whether a name is wanted that no program type has.
fn is_missing(plant: &Plant, name: Option<&[u8]>) -> bool
    ensures { result ≡ drawn.is_missing plant.now (option_map (λ name. name.now) name.entry) }
{
    match name {
        None => false,
        Some(name) => plant.find_type(name).is_none(),
    }
}

/// The drawing of the program types of a plant: all of them, or the one with this name, whatever the case of its letters. `NoSuchType` is
/// answered where no program type has the name, and only there; `TooLarge` where the drawing would be 2^32 pixels wide or high; `Memory`
/// where memory was refused.
pub fn svg_of_plant(alloc: Global, plant: &Plant, name: Option<&[u8]>) -> Result<Vec<u8>, SvgError>
    ensures drawn { IfOk result (λ text. IsDrawingOf plant.now (option_map (λ name. name.now) name.entry) text.items) }
    ensures undrawn { IfErr result (λ error. IsUndrawnFor plant.now (option_map (λ name. name.now) name.entry) error) }
{
    if is_missing(plant, name) {
        return Err(SvgError::NoSuchType);
    }
    match svg_of_types(alloc, plant, wanted_type(plant, name)) {
        Ok(text) => Ok(text),
        Err(DrawingError::Layout(_)) => Err(SvgError::TooLarge),
        Err(DrawingError::OutOfMemory) => Err(SvgError::Replay(ReplayError::Memory)),
    }
}

// Whether an instance is of the program type (2.7.1).
fn is_of(program: TypeId, instance: Option<&Instance>) -> bool
    ensures { result ≡ standing.is_of program (option_map (λ instance. instance.now) instance.entry) }
{
    match instance {
        None => false,
        Some(instance) => instance.program.0 == program.0,
    }
}

// Whether it is of the program type that is wanted, where one is named.
fn is_wanted(wanted: Option<TypeId>, instance: Option<&Instance>) -> bool
    ensures { result ≡ standing.is_wanted wanted (option_map (λ instance. instance.now) instance.entry) }
{
    match wanted {
        None => true,
        Some(program) => is_of(program, instance),
    }
}

// An instance with what its window shows, if it is wanted.
fn shown_of(
    alloc: Global,
    resource: &Resource,
    wanted: Option<TypeId>,
    instance: ProgId,
) -> Result<Option<Marked>, AllocError>
    requires { instance.0 < length (plant_of resource.now).instances }
    ensures { (h : History) → Agrees resource.now h → IfOk result (λ shown.
        shown ≡ standing.shown_of (plant_of resource.now) (state_of (plant_of resource.now) h) wanted instance) }
{
    if !is_wanted(
        wanted,
        resource.plant().instances().get(usize::from(instance.0)),
    ) {
        return Ok(None);
    }
    let marks = marks_of(alloc, resource, instance)?;
    Ok(Some(Marked { instance, marks }))
}

// One more, if there is one.
fn push_some(shown: &mut Vec<Marked>, marked: Option<Marked>) -> Result<(), AllocError>
    ensures { OnOk result (shown.new.items ≡ shown.old.items ++ option_to_list marked) }
{
    match marked {
        None => Ok(()),
        Some(marked) => {
            shown.push(marked)?;
            Ok(())
        }
    }
}

// The instances of a resource that are wanted, each with what its window shows.
fn shown_instances(
    alloc: Global,
    resource: &Resource,
    wanted: Option<TypeId>,
) -> Result<Vec<Marked>, AllocError>
    ensures { (h : History) → Agrees resource.now h → IfOk result (λ shown.
        shown.items ≡ standing.shown (plant_of resource.now) (state_of (plant_of resource.now) h) wanted) }
{
    let mut shown = Vec::new(alloc);
    for number in 0..resource.plant().instances().len() {
        let marked = shown_of(alloc, resource, wanted, ProgId(number as u8))?;
        push_some(&mut shown, marked)?;
    }
    Ok(shown)
}

// The drawing of these instances of a plant.
fn svg_of_shown(alloc: Global, plant: &Plant, shown: &[Marked]) -> Result<Vec<u8>, SvgError>
    ensures drawn { IfOk result (λ text. IsMarkedDrawing plant.now shown.now text.items) }
    ensures undrawn { (name : Option (List ℕ)) → IfErr result (λ error. IsUndrawnFor plant.now name error) }
{
    match svg_of_instances(alloc, plant, shown) {
        Ok(text) => Ok(text),
        Err(DrawingError::Layout(_)) => Err(SvgError::TooLarge),
        Err(DrawingError::OutOfMemory) => Err(SvgError::Replay(ReplayError::Memory)),
    }
}

// The drawing of those of a resource that are wanted.
fn svg_of_wanted(
    alloc: Global,
    resource: &Resource,
    wanted: Option<TypeId>,
) -> Result<Vec<u8>, SvgError>
    ensures drawn { (h : History) → Agrees resource.now h → IfOk result (λ text. IsMarkedDrawing (plant_of resource.now)
        (standing.shown (plant_of resource.now) (state_of (plant_of resource.now) h) wanted) text.items) }
    ensures undrawn { (name : Option (List ℕ)) → IfErr result (λ error. IsUndrawnFor (plant_of resource.now) name error) }
{
    match shown_instances(alloc, resource, wanted) {
        Ok(shown) => svg_of_shown(alloc, resource.plant(), &shown),
        Err(_) => Err(SvgError::Replay(ReplayError::Memory)),
    }
}

/// The drawing of the program instances of a resource as they stand: of all, or of those of the program type with this name, whatever the
/// case of its letters. The errors are those of `svg_of_plant`.
pub fn svg_of_resource(
    alloc: Global,
    resource: &Resource,
    name: Option<&[u8]>,
) -> Result<Vec<u8>, SvgError>
    ensures drawn { (h : History) → Agrees resource.now h → IfOk result (λ text. standing.IsDrawingAt
        (plant_of resource.now) (state_of (plant_of resource.now) h) (option_map (λ name. name.now) name.entry) text.items) }
    ensures undrawn { IfErr result (λ error. IsUndrawnFor (plant_of resource.now) (option_map (λ name. name.now) name.entry) error) }
{
    if is_missing(resource.plant(), name) {
        return Err(SvgError::NoSuchType);
    }
    svg_of_wanted(alloc, resource, wanted_type(resource.plant(), name))
}
