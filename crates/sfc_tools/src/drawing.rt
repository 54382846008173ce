//! Charts as SVG.

ghost use Rattle.sfc_tools.specs.Drawings.{TellsDrawing, TellsDrawingBehind};

use crate::tool_error::ToolError;
use sfc_svg::draw::{draw_after as svg_after, draw_types};
use std::alloc::Global;

/// The drawing that `sfcmon draw` prints of a chart: its program types. The errors are that the chart is refused, that the drawing would be
/// too large, and that memory was refused.
pub fn draw(alloc: Global, chart: &[u8]) -> Result<Vec<u8>, ToolError>
    ensures { TellsDrawing chart.now result }
{
    let mut text = Vec::new(alloc);
    let mut chart = chart;
    draw_types(alloc, &mut chart, None, &mut text)?;
    Ok(text)
}

/// The drawing that `sfcmon draw --after` prints of a chart and a script: its program instances, as they stand when the script was played.
/// The errors are those of `draw`, and that the script is refused over the chart.
pub fn draw_after(alloc: Global, chart: &[u8], script: &[u8]) -> Result<Vec<u8>, ToolError>
    ensures { TellsDrawingBehind chart.now script.now result }
{
    let mut text = Vec::new(alloc);
    let (mut chart, mut script) = (chart, script);
    svg_after(alloc, &mut chart, &mut script, None, &mut text)?;
    Ok(text)
}
