//! What a script never reaches.

ghost use Rattle.std.specs.Prelude.{IfErr, IfOk};
ghost use Rattle.sfc_tools.specs.Runs.{IsDrawingOfReached, TellsOfRun, TellsReached};
ghost use Rattle.sfc_tools.specs.Told.{IsForWant, OrTooLarge};

use crate::reading::check_both;
use crate::tool_error::{ToolError, undrawn};
use sfc_cover::cover::Cover;
use sfc_replay::replay_error::ReplayError;
use std::alloc::Global;

// A chart with what the script reaches.
fn cover_of(alloc: Global, chart: &[u8], script: &[u8]) -> Result<Cover, ReplayError> {
    let (mut chart, mut script) = (chart, script);
    let mut cover = Cover::of_chart(alloc, &mut chart)?;
    cover.play(alloc, &mut script)?;
    Ok(cover)
}

// The same, where both were read before: what remains is that memory was refused.
fn covered(alloc: Global, chart: &[u8], script: &[u8]) -> Result<Cover, ToolError>
    ensures { IfErr result IsForWant }
{
    match cover_of(alloc, chart, script) {
        Ok(cover) => Ok(cover),
        Err(_) => Err(ToolError::Replay(ReplayError::Memory)),
    }
}

// The report of what was reached.
fn report_of(alloc: Global, cover: &Cover) -> Result<Vec<u8>, ToolError>
    ensures { IfErr result IsForWant }
{
    let mut text = Vec::new(alloc);
    match cover.put_report(alloc, &mut text) {
        Ok(()) => Ok(text),
        Err(_) => Err(ToolError::Replay(ReplayError::Memory)),
    }
}

/// What `sfcmon cover` prints of a script on a chart. The errors are that the chart is refused, or the script over it, and that memory was.
pub fn cover(alloc: Global, chart: &[u8], script: &[u8]) -> Result<Vec<u8>, ToolError>
    ensures { TellsOfRun chart.now script.now result }
{
    check_both(alloc, chart, script)?;
    let cover = covered(alloc, chart, script)?;
    report_of(alloc, &cover)
}

// The drawing of what was reached; there is one, since no program type is named.
fn drawing_of(alloc: Global, cover: &Cover) -> Result<Vec<u8>, ToolError>
    ensures drawn { IfOk result (λ text. IsDrawingOfReached text.items) }
    ensures undrawn { IfErr result (OrTooLarge IsForWant) }
{
    match cover.drawing(alloc, None) {
        Ok(Some(text)) => Ok(text),
        Ok(None) => Err(ToolError::TooLarge),
        Err(error) => Err(undrawn(error)),
    }
}

/// The drawing that `sfcmon draw --cover` prints of a chart and a script: its program instances, with what was never reached of them. The
/// errors are those of `cover`, and that the drawing would be too large.
pub fn draw_cover(alloc: Global, chart: &[u8], script: &[u8]) -> Result<Vec<u8>, ToolError>
    ensures { TellsReached chart.now script.now result }
{
    check_both(alloc, chart, script)?;
    let cover = covered(alloc, chart, script)?;
    drawing_of(alloc, &cover)
}
