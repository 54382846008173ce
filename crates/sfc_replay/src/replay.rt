//! A chart and a script, from bytes to bytes.

ghost use Rattle.std.specs.Prelude.{◌≡◌, [], IfOk, IfErr};
ghost use Rattle.sfc_base.specs.Writing.{Writes};
ghost use Rattle.sfc_output.specs.sfc_debug.Agreement.{Agrees};
ghost use Rattle.sfc_output.specs.sfc_debug.Steered.{steered_by};
ghost use Rattle.sfc_output.specs.Output.{any_amiss, debugger_of, lines_of_play, text_of};
ghost use Rattle.sfc_replay.specs.Replay.{Finds, Replays};
ghost use Rattle.sfc_replay.specs.Working.Faults.{IsOutputFault};

use crate::opening::{Opened, open_from};
use crate::play::play;
use crate::replay_error::ReplayError;
use crate::text::Text;
use std::alloc::Global;
use std::io::{Read, Write};

// The commands in turn, each with its lines, and then those of the image.
fn play_text<W: Write>(alloc: Global, opened: Opened, w: &mut W) -> Result<bool, ReplayError>
    ensures faults { IfErr result IsOutputFault }
    ensures amiss { Agrees opened.debugger [] →
        IfOk result (λ amiss. amiss ≡ any_amiss (steered_by opened.debugger) [] opened.commands.items) }
    ensures lines { Agrees opened.debugger [] → Writes (W.contents w.old) (W.contents w.new) result
        (lines_of_play (debugger_of (steered_by opened.debugger)) (text_of (steered_by opened.debugger)) [] opened.commands.items) }
{
    let Opened {
        mut debugger,
        commands,
    } = opened;
    let mut text = Text::new(alloc);
    play(alloc, &mut text, &mut debugger, &commands, w)
}

/// Plays a script on a chart as `replay` does, and answers whether something went amiss: a command was refused, or the scan of an
/// instance ended with a fault or was passed over for one.
pub fn replay_strict<C: Read, S: Read, W: Write>(
    alloc: Global,
    chart: &mut C,
    script: &mut S,
    w: &mut W,
) -> Result<bool, ReplayError>
    ensures replays { Replays (C.remaining chart.old, C.remaining chart.new) (S.remaining script.old, S.remaining script.new)
        (W.contents w.old, W.contents w.new) result }
    ensures finds { Finds (C.remaining chart.old, C.remaining chart.new) (S.remaining script.old, S.remaining script.new) result }
{
    let opened = open_from(alloc, chart, script)?;
    play_text(alloc, opened, w)
}

/// Plays a script on a chart, and writes what each command answers and the variables at the end.
///
/// The chart is read and loaded first, then the whole script is read, and only then is anything written. At most
/// 1,048,577 bytes are taken from each reader, in their order, and none of the script where the chart is refused.
/// `Chart` is answered where the chart is refused, `Script` where the script is refused, `Read` where a reader failed:
/// then nothing was written. `Write` is answered where the writer failed or took no byte, `Memory` where memory was
/// refused: then a front of the output was written.
pub fn replay<C: Read, S: Read, W: Write>(
    alloc: Global,
    chart: &mut C,
    script: &mut S,
    w: &mut W,
) -> Result<(), ReplayError>
    ensures { Replays (C.remaining chart.old, C.remaining chart.new) (S.remaining script.old, S.remaining script.new)
        (W.contents w.old, W.contents w.new) result }
{
    match replay_strict(alloc, chart, script, w) {
        Ok(_) => Ok(()),
        Err(error) => Err(error),
    }
}
