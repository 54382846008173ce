//! Charts as SVG, from bytes to bytes.

ghost use Rattle.std.specs.Prelude.{option_map};
ghost use Rattle.sfc_events.specs.History.{History};
ghost use Rattle.sfc_replay.specs.sfc_core.Agreement.{Agrees, plant_of};
ghost use Rattle.sfc_replay.specs.sfc_core.PlantState.{state_of};
ghost use Rattle.sfc_svg.specs.Drawn.{IsDrawingOf};
ghost use Rattle.sfc_svg.specs.Played.{DrawsAfter};
ghost use Rattle.sfc_svg.specs.Standing.{IsDrawingAt};
ghost use Rattle.sfc_svg.specs.Types.{DrawsTypes};
ghost use Rattle.sfc_svg.specs.Written.{IsPut, IsWritten};

use crate::playing::debugger_after;
use crate::sfc_core::resource::Resource;
use crate::svg::{svg_of_plant, svg_of_resource};
use crate::svg_error::SvgError;
use sfc_base::write_fault::put_all;
use sfc_plant::plant::Plant;
use sfc_replay::chart::plant_of_text;
use sfc_replay::input::read_to_end;
use sfc_replay::replay_error::ReplayError;
use std::alloc::Global;
use std::io::{Read, Write};

// Writes a drawing.
fn put_drawing<W: Write>(w: &mut W, text: &[u8]) -> Result<(), SvgError>
    ensures { IsWritten (W.contents w.old, W.contents w.new) text.now result }
{
    match put_all(w, text) {
        Ok(()) => Ok(()),
        Err(_) => Err(SvgError::Replay(ReplayError::Write)),
    }
}

// Writes the drawing of a plant.
fn put_plant<W: Write>(
    alloc: Global,
    plant: &Plant,
    name: Option<&[u8]>,
    w: &mut W,
) -> Result<(), SvgError>
    ensures { IsPut plant.now (option_map (λ name. name.now) name.entry)
        (IsDrawingOf plant.now (option_map (λ name. name.now) name.entry)) (W.contents w.old, W.contents w.new) result }
{
    match svg_of_plant(alloc, plant, name) {
        Ok(text) => put_drawing(w, &text),
        Err(error) => Err(error),
    }
}

/// Writes the program types of a chart as SVG: all of them, one below the other, or the one with this name, whatever the case of its
/// letters.
///
/// At most 1,048,577 bytes are taken from the reader. `NoSuchType` is answered where no program type has the name, `TooLarge` where the
/// drawing would be 2^32 pixels wide or high, `Chart` where the chart is refused, `Read` where the reader failed, `Memory` where memory was
/// refused: then nothing was written. `Write` is answered where the writer failed or took no byte: then a front of the drawing was written.
pub fn draw_types<C: Read, W: Write>(
    alloc: Global,
    chart: &mut C,
    name: Option<&[u8]>,
    w: &mut W,
) -> Result<(), SvgError>
    ensures { DrawsTypes (option_map (λ name. name.now) name.entry)
        (C.remaining chart.old, C.remaining chart.new) (W.contents w.old, W.contents w.new) result }
{
    let text = read_to_end(alloc, chart)?;
    let plant = plant_of_text(alloc, &text)?;
    put_plant(alloc, &plant, name, w)
}

// Writes the drawing of a resource.
fn put_resource<W: Write>(
    alloc: Global,
    resource: &Resource,
    name: Option<&[u8]>,
    w: &mut W,
) -> Result<(), SvgError>
    ensures { (h : History) → Agrees resource.now h → IsPut (plant_of resource.now) (option_map (λ name. name.now) name.entry)
        (IsDrawingAt (plant_of resource.now) (state_of (plant_of resource.now) h) (option_map (λ name. name.now) name.entry))
        (W.contents w.old, W.contents w.new) result }
{
    match svg_of_resource(alloc, resource, name) {
        Ok(text) => put_drawing(w, &text),
        Err(error) => Err(error),
    }
}

/// Writes the program instances of a chart as SVG, as they stand when a script was played: all of them, one below the other, or those of
/// the program type with this name. Marked are active steps with their times, enabled transitions, those that the latest scan of each
/// cleared, the actions that it executed, and what is forced; scans and the fault are told behind the name.
///
/// The chart is read first, then the script, and at most 1,048,577 bytes are taken from each. The errors are those of `draw_types`, and
/// `Script` where the script is refused; a command of the script that is refused changes nothing, and is passed over.
pub fn draw_after<C: Read, S: Read, W: Write>(
    alloc: Global,
    chart: &mut C,
    script: &mut S,
    name: Option<&[u8]>,
    w: &mut W,
) -> Result<(), SvgError>
    ensures { DrawsAfter (option_map (λ name. name.now) name.entry) (C.remaining chart.old, C.remaining chart.new)
        (S.remaining script.old, S.remaining script.new) (W.contents w.old, W.contents w.new) result }
{
    let debugger = debugger_after(alloc, chart, script)?;
    put_resource(alloc, debugger.resource(), name, w)
}
