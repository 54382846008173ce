//! A script on a chart.

ghost use Rattle.sfc_tools.specs.Plays.{TellsPlay};

use crate::tool_error::ToolError;
use sfc_replay::replay::replay;
use std::alloc::Global;

/// What `sfcmon replay` prints of a script on a chart. The errors are that the chart is refused, or the script over it, and that memory was.
pub fn play(alloc: Global, chart: &[u8], script: &[u8]) -> Result<Vec<u8>, ToolError>
    ensures { TellsPlay chart.now script.now result }
{
    let mut text = Vec::new(alloc);
    let (mut chart, mut script) = (chart, script);
    replay(alloc, &mut chart, &mut script, &mut text)?;
    Ok(text)
}
