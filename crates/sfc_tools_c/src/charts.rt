//! What is told of a chart. Each call answers 0 where there is a text, which it gives; else -6 where the buffer is too short, or the code of
//! `ToolError`. `needed` tells the length of the text in both cases; 0 where there is none.

ghost use Rattle.sfc_tools.specs.Drawings.{TellsDrawing};
ghost use Rattle.sfc_tools.specs.Listings.{TellsListing};
ghost use Rattle.sfc_tools.specs.Reports.{TellsFaults};
ghost use Rattle.sfc_tools_c.specs.Texts.{GivesWhat};

use crate::answering::give;
use sfc_tools::drawing::draw;
use sfc_tools::listing::list;
use sfc_tools::telling::why;
use std::alloc::Global;

/// What `sfcmon why --all` prints of a chart, whose name is `chart`: where its faults are, and what mends them.
#[unsafe(no_mangle)]
pub extern "C" fn sfc_why_chart(
    alloc: Global,
    chart: &[u8],
    into: &mut [u8],
    needed: &mut usize,
) -> i32
    ensures { GivesWhat (TellsFaults chart.now) into.old into.new needed.new result }
{
    give(why(alloc, chart), into, needed)
}

/// The text that `sfcmon list` prints of a chart: all that it says, in one layout.
#[unsafe(no_mangle)]
pub extern "C" fn sfc_list(alloc: Global, chart: &[u8], into: &mut [u8], needed: &mut usize) -> i32
    ensures { GivesWhat (TellsListing chart.now) into.old into.new needed.new result }
{
    give(list(alloc, chart), into, needed)
}

/// The drawing that `sfcmon draw` prints of a chart: its program types.
#[unsafe(no_mangle)]
pub extern "C" fn sfc_draw(alloc: Global, chart: &[u8], into: &mut [u8], needed: &mut usize) -> i32
    ensures { GivesWhat (TellsDrawing chart.now) into.old into.new needed.new result }
{
    give(draw(alloc, chart), into, needed)
}
