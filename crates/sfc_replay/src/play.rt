//! The commands of a script, one after the other.

ghost use Rattle.std.specs.Prelude.{◌≡◌, ◌++◌, ◌||◌, Some, IfOk, OnOk, IfErr};
ghost use Rattle.sfc_base.specs.Writing.{Writes};
ghost use Rattle.sfc_output.specs.sfc_debug.Agreement.{Agrees, plant_of, table_of};
ghost use Rattle.sfc_output.specs.sfc_debug.Histories.{CommandHistory, TimedCommand};
ghost use Rattle.sfc_output.specs.sfc_debug.States.{DebugState};
ghost use Rattle.sfc_output.specs.sfc_debug.Steered.{steered_by};
ghost use Rattle.sfc_output.specs.Output as output;
ghost use Rattle.sfc_output.specs.Output.{Lines, Verdict, any_amiss, closing_lines, command_lines, commands_lines, debugger_of};
ghost use Rattle.sfc_output.specs.Output.{lines_of_play, session_after};
ghost use Rattle.sfc_replay.specs.Working.Faults.{IsOutputFault};
ghost use Rattle.sfc_replay.specs.Working.Playing.{PassesOn};

use crate::replay_error::ReplayError;
use crate::report::Report;
use crate::sfc_debug::debugger::Debugger;
use crate::sfc_debug::opening::DebugOpening;
use crate::sfc_debug::timed::Timed;
use sfc_base::write_fault::put_all;
use sfc_events::command::{Answer, Command};
use sfc_events::refusal::Refusal;
use sfc_page::page::Page;
use std::alloc::{AllocError, Global};
use std::io::Write;

/// How many bytes wait before they are written.
const PIECE: usize = 65_536;

// A command was refused, or the scan of an instance ended with a fault or was passed over for one.
fn is_amiss(answer: Result<Answer, Refusal>) -> bool
    ensures { result ≡ output.is_amiss answer }
{
    match answer {
        Err(_) => true,
        Ok(
            Answer::Scanned {
                faulted,
                skipped,
                ..
            },
        ) => !faulted.is_empty() || !skipped.is_empty(),
        Ok(Answer::Done | Answer::Value(_)) => false,
    }
}

// One of the two is true.
fn either(first: bool, second: bool) -> bool
    ensures { result ≡ first || second }
{
    first || second
}

// The debugger goes on from what it has kept of its commands.
fn begin_epoch(alloc: Global, debugger: &mut Debugger) -> Result<(), AllocError>
    ensures plant { plant_of debugger.new ≡ plant_of debugger.old }
    ensures table { table_of debugger.new ≡ table_of debugger.old }
    ensures agrees { (h : CommandHistory) → Agrees debugger.old h → Agrees debugger.new h }
{
    let mut opening = DebugOpening::new(alloc, debugger)?;
    debugger.save(&mut opening);
    debugger.restore(&opening);
    Ok(())
}

// The same at an accepted Epoch, and else nothing.
fn begin_if_epoch(
    alloc: Global,
    debugger: &mut Debugger,
    command: Command,
    answer: Result<Answer, Refusal>,
) -> Result<(), AllocError>
    ensures plant { plant_of debugger.new ≡ plant_of debugger.old }
    ensures table { table_of debugger.new ≡ table_of debugger.old }
    ensures agrees { (h : CommandHistory) → Agrees debugger.old h → Agrees debugger.new h }
{
    match (command, answer) {
        (Command::Epoch, Ok(_)) => begin_epoch(alloc, debugger),
        _ => Ok(()),
    }
}

// One command, and its lines behind what waits; and whether something went amiss.
fn run_command<R: Report>(
    alloc: Global,
    report: &mut R,
    debugger: &mut Debugger,
    timed: &Timed,
    page: &mut Page,
) -> Result<bool, AllocError>
    requires fits { R.fits report.old (steered_by debugger.old) }
    ensures steered { steered_by debugger.new ≡ steered_by debugger.old }
    ensures fits { R.fits report.new (steered_by debugger.old) }
    ensures agrees { (h : CommandHistory) → Agrees debugger.old h →
        Agrees debugger.new ((debugger_of (steered_by debugger.old)).after h timed.now) }
    ensures report { (h : CommandHistory) → Agrees debugger.old h → R.agrees report.old (steered_by debugger.old) h →
        OnOk result (R.agrees report.new (steered_by debugger.old) ((debugger_of (steered_by debugger.old)).after h timed.now)) }
    ensures amiss { (h : CommandHistory) → Agrees debugger.old h →
        IfOk result (λ amiss. amiss ≡ output.is_amiss ((debugger_of (steered_by debugger.old)).verdict h timed.now)) }
    ensures lines { (rule : Lines TimedCommand Verdict DebugState) (h : CommandHistory) → R.lines (steered_by debugger.old) ≡ Some rule →
        Agrees debugger.old h → OnOk result (page.new ≡ page.old ++ command_lines (debugger_of (steered_by debugger.old)) rule h timed.now) }
{
    let answer = debugger.obey(*timed);
    let amiss = is_amiss(answer);
    begin_if_epoch(alloc, debugger, timed.command, answer)?;
    report.put_answer(page, debugger, timed, &answer)?;
    Ok(amiss)
}

// Writes what waits.
#[cold]
#[inline(never)]
fn write_page<W: Write>(page: &mut Page, w: &mut W) -> Result<(), ReplayError>
    ensures faults { IfErr result IsOutputFault }
    ensures passed { PassesOn (W.contents w.old) (W.contents w.new) page.old page.new result }
{
    let text = page.take()?;
    put_all(w, &text)?;
    page.begin(text);
    Ok(())
}

// Writes what waits, where it is long.
fn pass_on<W: Write>(page: &mut Page, w: &mut W) -> Result<(), ReplayError>
    ensures faults { IfErr result IsOutputFault }
    ensures passed { PassesOn (W.contents w.old) (W.contents w.new) page.old page.new result }
{
    if page.has(PIECE) {
        write_page(page, w)
    } else {
        Ok(())
    }
}

// The commands in turn, each with its lines; the last of these wait. It answers whether something went amiss.
fn play_commands<R: Report, W: Write>(
    alloc: Global,
    report: &mut R,
    debugger: &mut Debugger,
    commands: &[Timed],
    page: &mut Page,
    w: &mut W,
) -> Result<bool, ReplayError>
    requires fits { R.fits report.old (steered_by debugger.old) }
    ensures faults { IfErr result IsOutputFault }
    ensures steered { steered_by debugger.new ≡ steered_by debugger.old }
    ensures fits { R.fits report.new (steered_by debugger.old) }
    ensures agrees { (h : CommandHistory) → Agrees debugger.old h →
        OnOk result (Agrees debugger.new (session_after (debugger_of (steered_by debugger.old)) h commands.now)) }
    ensures report { (h : CommandHistory) → Agrees debugger.old h → R.agrees report.old (steered_by debugger.old) h →
        OnOk result (R.agrees report.new (steered_by debugger.old) (session_after (debugger_of (steered_by debugger.old)) h commands.now)) }
    ensures amiss { (h : CommandHistory) → Agrees debugger.old h → IfOk result (λ amiss. amiss ≡ any_amiss (steered_by debugger.old) h commands.now) }
    ensures lines { (rule : Lines TimedCommand Verdict DebugState) (h : CommandHistory) → R.lines (steered_by debugger.old) ≡ Some rule →
        Agrees debugger.old h → PassesOn (W.contents w.old) (W.contents w.new)
        (page.old ++ commands_lines (debugger_of (steered_by debugger.old)) rule h commands.now) page.new result }
{
    let mut rest = commands;
    let mut amiss = false;
    'commands: while let Some((timed, after)) = rest.split_first() {
        amiss = either(amiss, run_command(alloc, report, debugger, timed, page)?);
        pass_on(page, w)?;
        rest = after;
    }
    Ok(amiss)
}

// Writes what waits, and what the report has of the end.
fn put_closing<R: Report, W: Write>(
    alloc: Global,
    report: &mut R,
    debugger: &Debugger,
    page: &mut Page,
    w: &mut W,
) -> Result<(), ReplayError>
    requires fits { R.fits report.old (steered_by debugger.now) }
    ensures faults { IfErr result IsOutputFault }
    ensures fits { R.fits report.new (steered_by debugger.now) }
    ensures agrees { (h : CommandHistory) → R.agrees report.old (steered_by debugger.now) h → R.agrees report.new (steered_by debugger.now) h }
    ensures lines { (rule : Lines TimedCommand Verdict DebugState) (h : CommandHistory) → R.lines (steered_by debugger.now) ≡ Some rule →
        Agrees debugger.now h → Writes (W.contents w.old) (W.contents w.new) result
        (page.old ++ closing_lines (debugger_of (steered_by debugger.now)) rule h) }
{
    let mut text = page.take()?;
    report.append_closing(alloc, &mut text, debugger)?;
    put_all(w, &text)?;
    Ok(())
}

/// Gives the commands to a debugger, each at its raw instant in microseconds, and writes what the report has of each and of how the
/// debugger stands at the end, many commands at a time. It answers whether something went amiss: a command was refused, or the scan
/// of an instance ended with a fault or was passed over for one. At an accepted Epoch the debugger goes on from what it keeps of
/// its commands, in memory that is given back. The report agrees with all commands that the debugger has accepted, where it did so before.
///
/// `Write` is answered where the writer failed or took no byte, `Memory` where memory was refused; then a front of the
/// lines was written.
pub fn play<R: Report, W: Write>(
    alloc: Global,
    report: &mut R,
    debugger: &mut Debugger,
    commands: &[Timed],
    w: &mut W,
) -> Result<bool, ReplayError>
    requires fits { R.fits report.old (steered_by debugger.old) }
    ensures faults { IfErr result IsOutputFault }
    ensures steered { steered_by debugger.new ≡ steered_by debugger.old }
    ensures fits { R.fits report.new (steered_by debugger.old) }
    ensures agrees { (h : CommandHistory) → Agrees debugger.old h →
        OnOk result (Agrees debugger.new (session_after (debugger_of (steered_by debugger.old)) h commands.now)) }
    ensures report { (h : CommandHistory) → Agrees debugger.old h → R.agrees report.old (steered_by debugger.old) h →
        OnOk result (R.agrees report.new (steered_by debugger.old) (session_after (debugger_of (steered_by debugger.old)) h commands.now)) }
    ensures amiss { (h : CommandHistory) → Agrees debugger.old h → IfOk result (λ amiss. amiss ≡ any_amiss (steered_by debugger.old) h commands.now) }
    ensures lines { (rule : Lines TimedCommand Verdict DebugState) (h : CommandHistory) → R.lines (steered_by debugger.old) ≡ Some rule →
        Agrees debugger.old h → Writes (W.contents w.old) (W.contents w.new) result
        (lines_of_play (debugger_of (steered_by debugger.old)) rule h commands.now) }
{
    let mut page = Page::with_capacity(alloc, PIECE * 2)?;
    let amiss = play_commands(alloc, report, debugger, commands, &mut page, w)?;
    put_closing(alloc, report, debugger, &mut page, w)?;
    Ok(amiss)
}
