//! Charts and scripts that are read before something is told of them.

ghost use Rattle.std.specs.Prelude.{IfErr, OnOk};
ghost use Rattle.sfc_tools.specs.Told.{AreRead, IsUntoldOfBoth};

use crate::tool_error::ToolError;
use sfc_replay::opening::open_both;
use std::alloc::Global;

/// That the chart is read and loaded, and the script read over it; or why not.
pub fn check_both(alloc: Global, chart: &[u8], script: &[u8]) -> Result<(), ToolError>
    ensures read { OnOk result (AreRead chart.now script.now) }
    ensures refused { IfErr result (IsUntoldOfBoth chart.now script.now) }
{
    let _opened = open_both(alloc, chart, script)?;
    Ok(())
}
