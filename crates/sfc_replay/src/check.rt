//! Charts that are checked and listed, from bytes to bytes.

ghost use Rattle.sfc_output.specs.sfc_list.Listing.{listing};
ghost use Rattle.sfc_replay.specs.Acceptance.{Answers, acceptance};
ghost use Rattle.sfc_replay.specs.Working.Telling.{Checks, IsWritten};

use crate::chart::plant_of_text;
use crate::input::read_to_end;
use crate::replay_error::ReplayError;
use crate::sfc_list::list::list_to;
use sfc_base::write_fault::put_all;
use sfc_plant::plant::Plant;
use std::alloc::Global;
use std::io::{Read, Write};

// That the bytes of a chart are read and loaded.
fn check_text(alloc: Global, text: &[u8]) -> Result<(), ReplayError>
    ensures { Checks text.now result }
{
    let _plant = plant_of_text(alloc, text)?;
    Ok(())
}

/// Writes `ok` and a line end where the chart is read and loaded.
///
/// At most 1,048,577 bytes are taken from the reader. `Chart` is answered where the chart is refused, `Read` where the
/// reader failed, `Memory` where memory was refused: then nothing was written. `Write` is answered where the writer
/// failed or took no byte: then a front of the line was written.
pub fn check_chart<C: Read, W: Write>(
    alloc: Global,
    chart: &mut C,
    w: &mut W,
) -> Result<(), ReplayError>
    ensures { Answers acceptance (C.remaining chart.old, C.remaining chart.new) (W.contents w.old, W.contents w.new) result }
{
    let text = read_to_end(alloc, chart)?;
    check_text(alloc, &text)?;
    put_all(w, b"ok\n")?;
    Ok(())
}

// Writes the text of a plant.
fn put_listing<W: Write>(plant: &Plant, w: &mut W) -> Result<(), ReplayError>
    ensures { IsWritten (W.contents w.old, W.contents w.new) (listing plant.now) result }
{
    list_to(plant, w)?;
    Ok(())
}

/// Writes the text of the plant where the chart is read and loaded: all that it says,
/// in blocks (Annex B; our choice of layout).
///
/// At most 1,048,577 bytes are taken from the reader. `Chart` is answered where the chart is refused, `Read` where the
/// reader failed, `Memory` where memory was refused: then nothing was written. `Write` is answered where the writer
/// failed or took no byte: then a front of the text was written.
pub fn list_chart<C: Read, W: Write>(
    alloc: Global,
    chart: &mut C,
    w: &mut W,
) -> Result<(), ReplayError>
    ensures { Answers listing (C.remaining chart.old, C.remaining chart.new) (W.contents w.old, W.contents w.new) result }
{
    let text = read_to_end(alloc, chart)?;
    let plant = plant_of_text(alloc, &text)?;
    put_listing(&plant, w)
}
