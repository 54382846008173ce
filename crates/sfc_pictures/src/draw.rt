//! A chart as Graphviz text, from bytes to bytes.

use crate::drawing::{picture_of_instances, picture_of_types};
use crate::picture_error::PictureError;
use crate::quiet::Quiet;
use crate::sfc_core::resource::Resource;
use crate::sfc_debug::debugger::Debugger;
use sfc_base::ids::TypeId;
use sfc_base::write_fault::put_all;
use sfc_plant::plant::Plant;
use sfc_replay::chart::plant_of_text;
use sfc_replay::input::read_to_end;
use sfc_replay::opening::{Opened, open_from};
use sfc_replay::play::play;
use sfc_replay::replay_error::ReplayError;
use std::alloc::Global;
use std::io::{Read, Write};

// The program type of this name, where one is named.
fn wanted_type(plant: &Plant, name: Option<&[u8]>) -> Result<Option<TypeId>, PictureError> {
    let Some(name) = name else {
        return Ok(None);
    };
    match plant.find_type(name) {
        Some(program) => Ok(Some(program)),
        None => Err(PictureError::NoSuchType),
    }
}

// Writes the picture of a plant.
fn put_types<W: Write>(
    alloc: Global,
    plant: &Plant,
    name: Option<&[u8]>,
    w: &mut W,
) -> Result<(), PictureError> {
    let wanted = wanted_type(plant, name)?;
    let picture = picture_of_types(alloc, plant, wanted)?;
    put_all(w, &picture)?;
    Ok(())
}

// Writes the picture of a resource.
fn put_instances<W: Write>(
    alloc: Global,
    resource: &Resource,
    name: Option<&[u8]>,
    w: &mut W,
) -> Result<(), PictureError> {
    let wanted = wanted_type(resource.plant(), name)?;
    let picture = picture_of_instances(alloc, resource, wanted)?;
    put_all(w, &picture)?;
    Ok(())
}

/// Writes the program types of a chart as a picture in the language of Graphviz: all of them, or the one with this name, whatever the
/// case of its letters. Steps are boxes, initial ones with a double border, with their action blocks at the side; transitions are bars
/// with number, name, priority and condition; double lines fork and join (2.6.2 to 2.6.5).
///
/// At most 1,048,577 bytes are taken from the reader. `NoSuchType` is answered where no program type has the name, and else what
/// `list_chart` answers: with `Chart`, `Read` and `Memory` nothing was written, with `Write` a front of the picture.
pub fn draw_chart<C: Read, W: Write>(
    alloc: Global,
    chart: &mut C,
    name: Option<&[u8]>,
    w: &mut W,
) -> Result<(), PictureError> {
    let text = read_to_end(alloc, chart)?;
    let plant = plant_of_text(alloc, &text)?;
    put_types(alloc, &plant, name, w)
}

// The debugger of a chart behind a script.
fn played<C: Read, S: Read>(
    alloc: Global,
    chart: &mut C,
    script: &mut S,
) -> Result<Debugger, ReplayError> {
    let Opened {
        mut debugger,
        commands,
    } = open_from(alloc, chart, script)?;
    let mut nothing = Vec::new(alloc);
    play(alloc, &mut Quiet, &mut debugger, &commands, &mut nothing)?;
    Ok(debugger)
}

/// Writes the program instances of a chart as a picture, as they stand when a script has been played: active steps are filled, with their
/// times, and the transitions that the latest scan of each cleared are marked. Those of the program type with this name, or all.
///
/// The chart is read first, then the script, and at most 1,048,577 bytes are taken from each. The errors are those of `draw_chart`, and
/// `Script` where the script is refused; a command of the script that is refused changes nothing, and is passed over.
pub fn draw_after<C: Read, S: Read, W: Write>(
    alloc: Global,
    chart: &mut C,
    script: &mut S,
    name: Option<&[u8]>,
    w: &mut W,
) -> Result<(), PictureError> {
    let debugger = played(alloc, chart, script)?;
    put_instances(alloc, debugger.resource(), name, w)
}
