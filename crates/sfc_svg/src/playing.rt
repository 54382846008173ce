//! A script that is played on a chart.

ghost use Rattle.std.specs.Prelude.{◌≡◌};
ghost use Rattle.sfc_replay.specs.sfc_debug.Agreement.{Agrees};
ghost use Rattle.sfc_replay.specs.sfc_debug.Histories.{CommandHistory};
ghost use Rattle.sfc_replay.specs.sfc_debug.Steered.{steered_by};
ghost use Rattle.sfc_replay.specs.sfc_output.Output.{debugger_of, session_after};
ghost use Rattle.sfc_svg.specs.Played.{PlaysFrom};

use crate::sfc_debug::debugger::Debugger;
use crate::sfc_debug::timed::Timed;
use sfc_replay::opening::{Opened, open_from};
use sfc_replay::replay_error::ReplayError;
use std::alloc::Global;
use std::io::Read;

// Gives a command to a debugger, at its raw instant.
fn give(debugger: &mut Debugger, timed: &Timed)
    ensures steered { steered_by debugger.new ≡ steered_by debugger.old }
    ensures agrees { (h : CommandHistory) → Agrees debugger.old h →
        Agrees debugger.new ((debugger_of (steered_by debugger.old)).after h timed.now) }
{
    let _answer = debugger.obey(*timed);
}

// Gives all commands to a debugger, and goes on behind one that is refused.
fn obey_all(debugger: &mut Debugger, commands: &[Timed])
    ensures steered { steered_by debugger.new ≡ steered_by debugger.old }
    ensures agrees { (h : CommandHistory) → Agrees debugger.old h →
        Agrees debugger.new (session_after (debugger_of (steered_by debugger.old)) h commands.now) }
{
    for timed in commands {
        give(debugger, timed);
    }
}

// The debugger when the commands were given to it.
fn played(opened: Opened) -> Debugger
    ensures steered { steered_by result ≡ steered_by opened.debugger }
    ensures agrees { (h : CommandHistory) → Agrees opened.debugger h →
        Agrees result (session_after (debugger_of (steered_by opened.debugger)) h opened.commands.items) }
{
    let Opened {
        mut debugger,
        commands,
    } = opened;
    obey_all(&mut debugger, &commands);
    debugger
}

/// The debugger of a chart when a script was played on it: each command was obeyed, or refused and passed over. It keeps no row of its
/// trace.
///
/// The chart is read and loaded first, then the script is read, and at most 1,048,577 bytes are taken from each. The errors are those of
/// `open_from`.
pub fn debugger_after<C: Read, S: Read>(
    alloc: Global,
    chart: &mut C,
    script: &mut S,
) -> Result<Debugger, ReplayError>
    ensures { PlaysFrom (C.remaining chart.old, C.remaining chart.new) (S.remaining script.old, S.remaining script.new) result }
{
    let opened = open_from(alloc, chart, script)?;
    Ok(played(opened))
}
