//! Where the variables of all instances are at fault (2.4.1.1).

ghost use Rattle.std.specs.Prelude.{length};
ghost use Rattle.sfc_program.specs.sfc_variables.Checks.{Loads};
ghost use Rattle.sfc_plant.specs.Image.{image_of, starts_from};
ghost use Rattle.sfc_load.specs.Loading.{image_check};

use crate::image_check::check_image;
use crate::sfc_check::placed_error::PlacedLoadError;
use crate::sfc_variables::located::same_location;
use sfc_base::case::is_same_word;
use sfc_base::items::Items;
use sfc_base::limits::VARIABLES;
use sfc_base::location::Location;
use sfc_events::load_error::LoadError;
use sfc_plant::instance::Instance;
use sfc_plant::program_type::ProgramType;
use sfc_plant::variable::Variable;
use sfc_text::tree::{Declaration, Program, Source, VariableBlock};
use sfc_tokens::placed::Placed;
use sfc_tokens::span::{NOWHERE, Span};
use std::alloc::{AllocError, Global};

// The declarations of the image, block by block: the globals, then the VAR blocks of each instance's program type.
type Blocks<'a> = Vec<&'a Items<Placed<Declaration>>>;

// Puts the VAR blocks of a program type last.
fn add_blocks<'a>(program: &'a Program, blocks: &mut Blocks<'a>) -> Result<(), AllocError> {
    for block in program.variables.as_slice() {
        if let VariableBlock::Local(declarations) = block {
            blocks.push(declarations)?;
        }
    }
    Ok(())
}

// The program type with this name.
fn program_named<'a>(source: &'a Source, name: &[u8]) -> Option<&'a Program> {
    for program in source.programs.as_slice() {
        if is_same_word(program.name.spelling(), name) {
            return Some(program);
        }
    }
    None
}

// The declarations of the image. The one error is that memory was refused.
fn image_blocks(alloc: Global, source: &Source) -> Result<Blocks<'_>, AllocError> {
    let mut blocks = Vec::new(alloc);
    blocks.push(&source.configuration.globals)?;
    for instance in source.configuration.instances.as_slice() {
        if let Some(program) = program_named(source, instance.value().program.spelling()) {
            add_blocks(program, &mut blocks)?;
        }
    }
    Ok(blocks)
}

// The name of the variable behind so many others.
fn place_of_variable(blocks: &[&Items<Placed<Declaration>>], others: usize) -> Span {
    let mut left = others;
    for block in blocks {
        for declaration in block.as_slice() {
            let names = declaration.value().names.as_slice();
            if let Some(name) = names.get(left) {
                return name.span();
            }
            left = left.saturating_sub(names.len());
        }
    }
    NOWHERE
}

// The locations of the image. The one error is that memory was refused.
fn image_locations<'a>(
    alloc: Global,
    blocks: &[&'a Items<Placed<Declaration>>],
) -> Result<Vec<&'a Placed<Location>>, AllocError> {
    let mut locations = Vec::new(alloc);
    for block in blocks {
        for declaration in block.as_slice() {
            if let Some(location) = &declaration.value().location {
                locations.push(location)?;
            }
        }
    }
    Ok(locations)
}

// Whether one of so many first ones is the location.
fn is_among_first(location: &Location, others: &[&Placed<Location>], count: usize) -> bool {
    others
        .iter()
        .take(count)
        .any(|other| same_location(location, other.value()))
}

// The first of the locations that stands before it too.
fn place_of_repeated(locations: &[&Placed<Location>]) -> Span {
    let mut place = 0usize;
    for location in locations {
        if is_among_first(location.value(), locations, place) {
            return location.span();
        }
        place = place.saturating_add(1);
    }
    NOWHERE
}

// Where the image is at fault: the first variable that is too much, or the second at one location. The one error is that memory
// was refused.
fn image_place(alloc: Global, source: &Source, error: LoadError) -> Result<Span, AllocError> {
    let blocks = image_blocks(alloc, source)?;
    if error == LoadError::SameLocation {
        return Ok(place_of_repeated(&image_locations(alloc, &blocks)?));
    }
    Ok(place_of_variable(&blocks, VARIABLES))
}

/// Refuses more than 4,096 variables, and two at one location (2.4.1.1), as `check_image` does, at the first variable that is
/// too much or the second location.
pub(crate) fn check_image_of(
    alloc: Global,
    source: &Source,
    globals: &[Variable],
    types: &[ProgramType],
    instances: &[Instance],
) -> Result<Vec<usize>, PlacedLoadError>
    ensures { Loads (λ starts. starts.items) result
        (image_check (image_of globals.now types.now instances.now))
        (starts_from (length globals.now) types.now instances.now) }
{
    match check_image(alloc, globals, types, instances) {
        Ok(starts) => Ok(starts),
        Err(error) => {
            let place = image_place(alloc, source, error)?;
            Err(PlacedLoadError::new(error, place))
        }
    }
}
