//! Signals.

ghost use Rattle.sfc_tools.specs.Runs.{TellsWave};

use crate::reading::check_both;
use crate::tool_error::{ToolError, unwaved};
use sfc_wave::asked::{Asked, Form, Instants};
use sfc_wave::wave::wave_script;
use std::alloc::Global;

/// The signals that `sfcmon wave` prints of a script on a chart, as a Value Change Dump. The errors are that the chart is refused, or the
/// script over it, and that memory was.
pub fn wave(alloc: Global, chart: &[u8], script: &[u8]) -> Result<Vec<u8>, ToolError>
    ensures { TellsWave chart.now script.now result }
{
    check_both(alloc, chart, script)?;
    let mut text = Vec::new(alloc);
    let (mut chart, mut script) = (chart, script);
    let asked = Asked {
        instants: Instants::Run,
        form: Form::Dump,
        only: &[],
    };
    match wave_script(alloc, &mut chart, &mut script, asked, &mut text) {
        Ok(_) => Ok(text),
        Err(error) => Err(unwaved(error)),
    }
}
