//! What is told of a script on a chart. Each call answers 0 where there is a text, which it gives; else -6 where the buffer is too short, or the code of
//! `ToolError`. `needed` tells the length of the text in both cases; 0 where there is none.

ghost use Rattle.sfc_tools.specs.Answers.{TellsAnswers};
ghost use Rattle.sfc_tools.specs.Drawings.{TellsDrawingBehind};
ghost use Rattle.sfc_tools.specs.Plays.{TellsPlay};
ghost use Rattle.sfc_tools.specs.Reports.{TellsFaultsOfScript};
ghost use Rattle.sfc_tools.specs.Runs.{TellsOfRun, TellsReached, TellsWave};
ghost use Rattle.sfc_tools_c.specs.Texts.{GivesWhat};

use crate::answering::give;
use sfc_tools::asking::ask;
use sfc_tools::covering::{cover, draw_cover};
use sfc_tools::drawing::draw_after;
use sfc_tools::playing::play;
use sfc_tools::telling::why_script;
use sfc_tools::waving::wave;
use std::alloc::Global;

/// What `sfcmon why` prints of a script, whose name is `script`, on a chart without a fault.
#[unsafe(no_mangle)]
pub extern "C" fn sfc_why_script(
    alloc: Global,
    chart: &[u8],
    script: &[u8],
    into: &mut [u8],
    needed: &mut usize,
) -> i32
    ensures { GivesWhat (TellsFaultsOfScript chart.now script.now) into.old into.new needed.new result }
{
    give(why_script(alloc, chart, script), into, needed)
}

/// What `sfcmon replay` prints of a script on a chart.
#[unsafe(no_mangle)]
pub extern "C" fn sfc_play(
    alloc: Global,
    chart: &[u8],
    script: &[u8],
    into: &mut [u8],
    needed: &mut usize,
) -> i32
    ensures { GivesWhat (TellsPlay chart.now script.now) into.old into.new needed.new result }
{
    give(play(alloc, chart, script), into, needed)
}

/// The drawing that `sfcmon draw --after` prints: the program instances, as they stand when the script was played.
#[unsafe(no_mangle)]
pub extern "C" fn sfc_draw_after(
    alloc: Global,
    chart: &[u8],
    script: &[u8],
    into: &mut [u8],
    needed: &mut usize,
) -> i32
    ensures { GivesWhat (TellsDrawingBehind chart.now script.now) into.old into.new needed.new result }
{
    give(draw_after(alloc, chart, script), into, needed)
}

/// The signals that `sfcmon wave` prints of a script on a chart, as a Value Change Dump.
#[unsafe(no_mangle)]
pub extern "C" fn sfc_wave(
    alloc: Global,
    chart: &[u8],
    script: &[u8],
    into: &mut [u8],
    needed: &mut usize,
) -> i32
    ensures { GivesWhat (TellsWave chart.now script.now) into.old into.new needed.new result }
{
    give(wave(alloc, chart, script), into, needed)
}

/// What `sfcmon cover` prints of a script on a chart.
#[unsafe(no_mangle)]
pub extern "C" fn sfc_cover(
    alloc: Global,
    chart: &[u8],
    script: &[u8],
    into: &mut [u8],
    needed: &mut usize,
) -> i32
    ensures { GivesWhat (TellsOfRun chart.now script.now) into.old into.new needed.new result }
{
    give(cover(alloc, chart, script), into, needed)
}

/// The drawing that `sfcmon draw --cover` prints: the program instances, with what the script never reaches of them.
#[unsafe(no_mangle)]
pub extern "C" fn sfc_draw_cover(
    alloc: Global,
    chart: &[u8],
    script: &[u8],
    into: &mut [u8],
    needed: &mut usize,
) -> i32
    ensures { GivesWhat (TellsReached chart.now script.now) into.old into.new needed.new result }
{
    give(draw_cover(alloc, chart, script), into, needed)
}

/// What `sfcmon debug` answers to the lines of questions, when those of a script were said. No steps are taken that a line leaves under way,
/// QUIT says nothing, and no file is written.
#[unsafe(no_mangle)]
pub extern "C" fn sfc_ask(
    alloc: Global,
    chart: &[u8],
    script: &[u8],
    questions: &[u8],
    into: &mut [u8],
    needed: &mut usize,
) -> i32
    ensures { GivesWhat (TellsAnswers chart.now script.now questions.now) into.old into.new needed.new result }
{
    give(ask(alloc, chart, script, questions), into, needed)
}
