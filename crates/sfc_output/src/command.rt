//! The lines of commands and of their answers.

ghost use Rattle.std.specs.Prelude.{◌≡◌, ◌<◌, ◌++◌, codes, length, OnOk};
ghost use Rattle.std.specs.Fmt.{decimal};
ghost use Rattle.sfc_events.specs.declared.command.Command.TheVariants.{BreakIf};
ghost use Rattle.sfc_output.specs.Commands as output;
ghost use Rattle.sfc_plant.specs.PlantNames.{image_name};
ghost use Rattle.sfc_output.specs.Private.Pieces.{other_end, scanned_line};
ghost use Rattle.sfc_page.specs.Lines.{written};
ghost use Rattle.sfc_debug.specs.Steered.{steered_by};
ghost use Rattle.sfc_page.specs.Values.{value_text};

use crate::breakpoint::{append_condition, append_place};
use crate::line::put_scanned;
use crate::naming::append_image_name;
use crate::sfc_instance::scan_end::ScanEnd;
use sfc_base::ids::{ProgId, TaskId, VarId};
use sfc_base::value::Value;
use sfc_debug::debugger::Debugger;
use sfc_events::command::{Answer, Command, CondId, Point, TraceRow};
use sfc_events::instance_set::InstanceSet;
use sfc_events::refusal::Refusal;
use sfc_page::append::{append, append_number, append_time, append_value};
use sfc_page::digits::NUMBER;
use sfc_page::line::Line;
use sfc_page::times::TIME;
use sfc_plant::plant::Plant;
use std::alloc::{AllocError, Global};

// A word, and a variable with a value.
fn append_valued(
    out: &mut Vec<u8>,
    plant: &Plant,
    word: &[u8],
    id: VarId,
    value: Value,
) -> Result<(), AllocError>
    ensures { OnOk result (out.new.items ≡ out.old.items ++ word.now ++ output.valued_text plant.now id value) }
{
    append(out, word)?;
    append_image_name(out, plant, id)?;
    append(out, b" ")?;
    append_value(out, value)
}

// A word, and a variable.
fn append_variable_word(
    out: &mut Vec<u8>,
    plant: &Plant,
    word: &[u8],
    id: VarId,
) -> Result<(), AllocError>
    ensures { OnOk result (out.new.items ≡ out.old.items ++ word.now ++ image_name plant.now id) }
{
    append(out, word)?;
    append_image_name(out, plant, id)
}

// A word, and a name.
fn append_named(out: &mut Vec<u8>, word: &[u8], name: &[u8]) -> Result<(), AllocError>
    ensures { OnOk result (out.new.items ≡ out.old.items ++ word.now ++ name.now) }
{
    append(out, word)?;
    append(out, name)
}

// A word, and a place of breakpoints.
fn append_placed(
    out: &mut Vec<u8>,
    debugger: &Debugger,
    word: &[u8],
    program: ProgId,
    point: Point,
) -> Result<(), AllocError>
    ensures { OnOk result (out.new.items ≡ out.old.items ++ word.now ++ output.place_text (steered_by debugger.now).plant program point) }
{
    append(out, word)?;
    append_place(out, debugger.resource(), program, point)
}

// A breakpoint with its condition.
fn append_conditional(
    out: &mut Vec<u8>,
    debugger: &Debugger,
    program: ProgId,
    point: Point,
    id: CondId,
) -> Result<(), AllocError>
    ensures { OnOk result (out.new.items ≡ out.old.items ++ output.command_text (steered_by debugger.now) (BreakIf program point id)) }
{
    append_placed(out, debugger, b" BREAK ", program, point)?;
    append(out, b" WHEN ")?;
    append_condition(out, debugger, id)
}

// A single scan, and the time that it lets pass.
fn append_single(
    out: &mut Vec<u8>,
    plant: &Plant,
    task: TaskId,
    delta: i64,
) -> Result<(), AllocError>
    ensures { OnOk result (out.new.items ≡ out.old.items ++ output.single_text plant.now task delta) }
{
    append_named(out, b" SINGLE ", plant.task_name(task))?;
    append(out, b" ")?;
    append_time(out, delta)
}

// The words of a command.
fn append_words(out: &mut Vec<u8>, debugger: &Debugger, command: Command) -> Result<(), AllocError>
    ensures { OnOk result (out.new.items ≡ out.old.items ++ output.command_text (steered_by debugger.now) command) }
{
    let plant = debugger.resource().plant();
    match command {
        Command::Scan(task) => append_named(out, b" SCAN ", plant.task_name(task)),
        Command::Input(id, value) => append_valued(out, plant, b" INPUT ", id, value),
        Command::Force(id, value) => append_valued(out, plant, b" FORCE ", id, value),
        Command::Release(id) => append_variable_word(out, plant, b" RELEASE ", id),
        Command::Reset(p) => append_named(out, b" RESET ", plant.instance_name(p)),
        Command::Read(id) => append_variable_word(out, plant, b" READ ", id),
        Command::Break(p, point) => append_placed(out, debugger, b" BREAK ", p, point),
        Command::BreakIf(p, point, id) => append_conditional(out, debugger, p, point, id),
        Command::Unbreak(p, point) => append_placed(out, debugger, b" UNBREAK ", p, point),
        Command::Stop => append(out, b" STOP"),
        Command::Go => append(out, b" GO"),
        Command::Single(task, delta) => append_single(out, plant, task, delta),
        Command::End => append(out, b" END"),
        Command::Epoch => append(out, b" EPOCH"),
    }
}

// The words of a command; those of a scan go by the line.
#[tactic(auto, using(sfc_page::proofs::Lines::written_none))]
fn put_words(
    line: &mut Line,
    out: &mut Vec<u8>,
    debugger: &Debugger,
    command: Command,
) -> Result<(), AllocError>
    ensures { OnOk result (written out.new.items line.new ≡
        written out.old.items line.old ++ output.command_text (steered_by debugger.now) command) }
{
    if let Command::Scan(task) = command {
        line.put(out, b" SCAN ")?;
        return line.put(out, debugger.resource().plant().task_name(task));
    }
    line.pass_on(out)?;
    append_words(out, debugger, command)
}

// Whether a breakpoint was hit.
fn hit_text(hit: bool) -> &'static [u8]
    ensures { result.now ≡ output.hit_text hit }
{
    if hit { b" hit" } else { b"" }
}

// What the answer to a scan adds.
#[tactic(auto, using(sfc_page::proofs::Lines::written_pieces))]
fn put_overruns(
    line: &mut Line,
    out: &mut Vec<u8>,
    overruns: u64,
    hit: bool,
) -> Result<(), AllocError>
    ensures { OnOk result (written out.new.items line.new ≡
        written out.old.items line.old ++ codes " overruns " ++ decimal overruns ++ output.hit_text hit) }
{
    line.put_and_reserve(out, b" overruns ", NUMBER)?;
    line.push_number(overruns);
    line.put(out, hit_text(hit))
}

// What a variable reads.
#[tactic(auto, using(sfc_page::proofs::Lines::written_none))]
fn put_read(line: &mut Line, out: &mut Vec<u8>, value: Value) -> Result<(), AllocError>
    ensures { OnOk result (written out.new.items line.new ≡ written out.old.items line.old ++ codes " " ++ value_text value) }
{
    line.put(out, b" ")?;
    line.pass_on(out)?;
    append_value(out, value)
}

// What the answer adds.
fn put_answer(line: &mut Line, out: &mut Vec<u8>, answer: Answer) -> Result<(), AllocError>
    ensures { OnOk result (written out.new.items line.new ≡ written out.old.items line.old ++ output.answer_text answer) }
{
    match answer {
        Answer::Done => Ok(()),
        Answer::Value(value) => put_read(line, out, value),
        Answer::Scanned { overruns, hit, .. } => put_overruns(line, out, overruns, hit),
    }
}

// The line of any accepted command.
#[cold]
#[inline(never)]
#[tactic(auto, using(sfc_page::proofs::Lines::written_pieces), unfolding(crate::specs::Commands::command_line))]
fn put_any(
    line: &mut Line,
    out: &mut Vec<u8>,
    debugger: &Debugger,
    timed: (Command, i64),
    answer: Answer,
) -> Result<(), AllocError>
    ensures { OnOk result (written out.new.items line.new ≡
        written out.old.items line.old ++ output.command_line (steered_by debugger.now) timed.0 timed.1 answer) }
{
    let (command, t) = timed;
    line.reserve(out, TIME)?;
    line.push_time(t);
    put_words(line, out, debugger, command)?;
    put_answer(line, out, answer)?;
    line.put(out, b"\n")
}

// The line of a scan that hit no breakpoint. Most have no overruns, and what is written of those is kept.
#[tactic(auto, using(crate::proofs::Scans::scanned_regrouped))]
#[cold]
#[inline(never)]
pub(crate) fn put_scan(
    line: &mut Line,
    out: &mut Vec<u8>,
    t: i64,
    task: &[u8],
    overruns: u64,
) -> Result<(), AllocError>
    ensures { OnOk result (written out.new.items line.new ≡ written out.old.items line.old ++ scanned_line t task.now overruns) }
{
    put_scanned(line, out, t, task, overruns)
}

/// A command that was accepted, and its answer.
#[derive(Clone, Copy)]
pub(crate) struct Accepted<'a> {
    pub command: &'a Command,
    pub answer: &'a Answer,
}

/// Puts the line of an accepted command behind the line, with its run instant in microseconds. The one error is that memory was refused;
/// then a front of it may stand there.
#[tactic(auto, unfolding(crate::specs::Commands::command_line, crate::specs::Private::Pieces::scanned_line))]
#[inline(always)]
pub(crate) fn put_command(
    line: &mut Line,
    out: &mut Vec<u8>,
    debugger: &Debugger,
    t: i64,
    accepted: &Accepted<'_>,
) -> Result<(), AllocError>
    ensures { OnOk result (written out.new.items line.new ≡
        written out.old.items line.old ++ output.command_line (steered_by debugger.now) accepted.now.command.now t accepted.now.answer.now) }
{
    let Accepted { command, answer } = *accepted;
    if let Command::Scan(task) = command
        && let Answer::Scanned {
            overruns,
            hit: false,
            ..
        } = answer
    {
        let name = debugger.resource().plant().task_name(*task);
        return put_scan(line, out, t, name, *overruns);
    }
    put_any(line, out, debugger, (*command, t), *answer)
}

/// Puts the line of an accepted command at the end: its run instant in microseconds, its words, and what its answer adds. The
/// one error is that memory was refused; then a front of it may stand there.
#[tactic(auto, using(sfc_page::proofs::Lines::written_none))]
pub fn append_command(
    out: &mut Vec<u8>,
    debugger: &Debugger,
    command: Command,
    t: i64,
    answer: Answer,
) -> Result<(), AllocError>
    ensures { OnOk result (out.new.items ≡ out.old.items ++ output.command_line (steered_by debugger.now) command t answer) }
{
    let mut line = Line::new();
    put_any(&mut line, out, debugger, (command, t), answer)?;
    line.pass_on(out)
}

/// Puts the line of a row of the trace at the end: its number, and the line of its command. The one error is that memory was
/// refused; then a front of it may stand there.
pub fn append_row(out: &mut Vec<u8>, debugger: &Debugger, row: TraceRow) -> Result<(), AllocError>
    ensures { OnOk result (out.new.items ≡ out.old.items ++ output.row_line (steered_by debugger.now) row) }
{
    append_number(out, row.number)?;
    append(out, b" ")?;
    append_command(out, debugger, row.command, row.t, row.answer)
}

// What a refusal adds to its number and name.
fn append_detail(out: &mut Vec<u8>, plant: &Plant, refusal: Refusal) -> Result<(), AllocError>
    ensures { OnOk result (out.new.items ≡ out.old.items ++ output.refusal_detail plant.now refusal) }
{
    match refusal {
        Refusal::NotDue(None) => append(out, b" none"),
        Refusal::NotDue(Some(next)) => {
            append(out, b" ")?;
            append_time(out, next)
        }
        Refusal::Yield(task) => {
            append(out, b" ")?;
            append(out, plant.task_name(task))
        }
        _ => Ok(()),
    }
}

/// Puts the line of a refused command at the end. The one error is that memory was refused; then a front of it may stand
/// there.
#[tactic(auto, unfolding(crate::specs::Commands::refusal_line))]
pub fn append_refusal(
    alloc: Global,
    out: &mut Vec<u8>,
    plant: &Plant,
    refusal: Refusal,
) -> Result<(), AllocError>
    ensures { OnOk result (out.new.items ≡ out.old.items ++ output.refusal_line plant.now refusal) }
{
    let text = refusal.to_string(alloc)?;
    append(out, text.as_bytes())?;
    append_detail(out, plant, refusal)?;
    append(out, b"\n")
}

// How the scan of an instance ended that didn't run; `None` where it is in neither set.
#[cold]
#[inline(never)]
fn other_end(faulted: InstanceSet, skipped: InstanceSet, instance: ProgId) -> Option<ScanEnd>
    ensures { result ≡ other_end faulted skipped instance.0 }
{
    if faulted.contains(instance) {
        Some(ScanEnd::Faulted)
    } else if skipped.contains(instance) {
        Some(ScanEnd::Skipped)
    } else {
        None
    }
}

// How the answer to a scan tells that the scan of an instance ended; `None` where it doesn't tell of it.
#[inline(always)]
pub(crate) fn scan_end_in(answer: &Answer, instance: ProgId) -> Option<ScanEnd>
    ensures { result ≡ output.scan_end_in answer.now instance.0 }
{
    let Answer::Scanned {
        ran,
        faulted,
        skipped,
        ..
    } = answer
    else {
        return None;
    };
    if ran.contains(instance) {
        return Some(ScanEnd::Ran);
    }
    // In most scans there is neither a fault nor an instance that is passed over for one.
    match (faulted.split_first(), skipped.split_first()) {
        (None, None) => None,
        _ => other_end(*faulted, *skipped, instance),
    }
}
