//! Charts in one layout.

ghost use Rattle.sfc_tools.specs.Listings.{TellsListing};

use crate::tool_error::ToolError;
use sfc_replay::check::list_chart;
use std::alloc::Global;

/// The text that `sfcmon list` prints of a chart: all that it says, in one layout. The errors are that the chart is refused, and that memory
/// was.
pub fn list(alloc: Global, chart: &[u8]) -> Result<Vec<u8>, ToolError>
    ensures { TellsListing chart.now result }
{
    let mut text = Vec::new(alloc);
    let mut chart = chart;
    list_chart(alloc, &mut chart, &mut text)?;
    Ok(text)
}
