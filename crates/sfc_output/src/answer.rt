//! The lines of a command and of its answer: its own, and one of each instance that was scanned.

ghost use Rattle.std.specs.Prelude.{◌≡◌, ◌<◌, ◌++◌, length, Ok, OnOk};
ghost use Rattle.sfc_events.specs.History.{History};
ghost use Rattle.sfc_plant.specs.Finding.{chart_of};
ghost use Rattle.sfc_plant.specs.InstanceSpaces.{space_of};
ghost use Rattle.sfc_debug.specs.sfc_tables.Tables.{tables_of};
ghost use Rattle.sfc_debug.specs.sfc_core.Agreement as core;
ghost use Rattle.sfc_debug.specs.sfc_core.PlantState as plant_state;
ghost use Rattle.sfc_debug.specs.Agreement.{Agrees, plant_of};
ghost use Rattle.sfc_debug.specs.Histories.{CommandHistory};
ghost use Rattle.sfc_debug.specs.States.{state_of};
ghost use Rattle.sfc_output.specs.Commands.{command_line, lines_at, lines_of, program_lines, refusal_line};
ghost use Rattle.sfc_output.specs.Memories.{Fits};
ghost use Rattle.sfc_debug.specs.sfc_instance.declared.scan_end.ScanEnd.TheVariants.{Ran};
ghost use Rattle.sfc_plant.specs.PlantNames.{task_name};
ghost use Rattle.sfc_output.specs.Programs.{program_line};
ghost use Rattle.sfc_output.specs.Private.Pieces.{done_text, head_text, scanned_line};
ghost use Rattle.sfc_page.specs.Lines.{written};
ghost use Rattle.sfc_debug.specs.Steered.{steered_by};

use crate::command::{Accepted, append_refusal, put_command, put_scan, scan_end_in};
use crate::kept_head::KeptHead;
use crate::kept_lines::KeptLines;
use crate::line::put_scans;
use crate::program::{put_done, put_program, put_steps_and_effects};
use crate::sfc_core::resource::Resource;
use crate::sfc_instance::scan_end::ScanEnd;
use sfc_base::ids::{ProgId, TaskId};
use sfc_debug::debugger::Debugger;
use sfc_events::command::{Answer, Command};
use sfc_events::refusal::Refusal;
use sfc_page::line::Line;
use sfc_page::page::Page;
use sfc_plant::plant::Plant;
use std::alloc::{AllocError, Global};

// How many bytes most answers have at the most.
const ANSWER: usize = 256;

// What the scan of an instance did, to the end of the line, which is kept at this place.
#[cold]
#[inline(never)]
fn put_done_of(
    line: &mut Line,
    out: &mut Vec<u8>,
    memory: &mut KeptLines,
    resource: &Resource,
    at: (ProgId, usize),
) -> Result<(), AllocError>
    requires { at.0.0 < length (core.plant_of resource.now).instances }
    ensures line { (h : History) → core.Agrees resource.now h →
        OnOk result (written out.new.items line.new ≡ written out.old.items line.old ++ done_text (space_of (core.plant_of resource.now) at.0)
        (tables_of (chart_of (core.plant_of resource.now) at.0)) ((plant_state.state_of (core.plant_of resource.now) h).instance_state at.0.0)) }
    ensures fits { Fits (core.plant_of resource.now) memory.old → Fits (core.plant_of resource.now) memory.new }
{
    let (instance, place) = at;
    put_done(line, out, memory, &resource.program(instance), place)
}

// The head of the line of an instance, put together and kept.
#[cold]
#[inline(never)]
fn put_new_head(
    line: &mut Line,
    out: &mut Vec<u8>,
    memory: &mut KeptLines,
    resource: &Resource,
    instance: ProgId,
) -> Result<(), AllocError>
    requires { instance.0 < length (core.plant_of resource.now).instances }
    ensures line { (h : History) → core.Agrees resource.now h →
        OnOk result (written out.new.items line.new ≡ written out.old.items line.old ++ head_text (core.plant_of resource.now) instance
        ((plant_state.state_of (core.plant_of resource.now) h).instance_state instance.0)) }
    ensures fits { Fits (core.plant_of resource.now) memory.old → Fits (core.plant_of resource.now) memory.new }
{
    let view = resource.program(instance);
    let scans = view.scans();
    let (passed_on, held) = (out.len(), line.len());
    put_scans(line, out, view.plant().instance_name(instance), scans)?;
    // What was passed on no longer stands in the line.
    if out.len() != passed_on {
        return Ok(());
    }
    memory.keep_head(instance, KeptHead::of(line.behind(held), scans))
}

// The head of the line of an instance: as it is kept, or else put together.
#[inline(always)]
fn put_head(
    line: &mut Line,
    out: &mut Vec<u8>,
    memory: &mut KeptLines,
    resource: &Resource,
    instance: ProgId,
) -> Result<(), AllocError>
    requires { instance.0 < length (core.plant_of resource.now).instances }
    ensures line { (h : History) → core.Agrees resource.now h → Fits (core.plant_of resource.now) memory.old →
        OnOk result (written out.new.items line.new ≡ written out.old.items line.old ++ head_text (core.plant_of resource.now) instance
        ((plant_state.state_of (core.plant_of resource.now) h).instance_state instance.0)) }
    ensures fits { Fits (core.plant_of resource.now) memory.old → Fits (core.plant_of resource.now) memory.new }
{
    let scans = resource.program(instance).scans();
    if let Some(head) = memory.head(instance, scans) {
        return head.put(line, out, scans);
    }
    put_new_head(line, out, memory, resource, instance)
}

// The line of an instance whose scan ran.
#[inline(always)]
fn put_ran(
    line: &mut Line,
    out: &mut Vec<u8>,
    memory: &mut KeptLines,
    resource: &Resource,
    instance: ProgId,
) -> Result<(), AllocError>
    requires { instance.0 < length (core.plant_of resource.now).instances }
    ensures line { (h : History) → core.Agrees resource.now h → Fits (core.plant_of resource.now) memory.old →
        OnOk result (written out.new.items line.new ≡ written out.old.items line.old ++ program_line (core.plant_of resource.now) instance
        ((plant_state.state_of (core.plant_of resource.now) h).instance_state instance.0) Ran) }
    ensures fits { Fits (core.plant_of resource.now) memory.old → Fits (core.plant_of resource.now) memory.new }
{
    put_head(line, out, memory, resource, instance)?;
    match put_steps_and_effects(line, out, memory, &resource.program(instance))? {
        Some(place) => put_done_of(line, out, memory, resource, (instance, place)),
        None => Ok(()),
    }
}

// The line of an instance whose scan ended with a fault, or was passed over for one.
#[cold]
#[inline(never)]
fn put_ended(
    line: &mut Line,
    out: &mut Vec<u8>,
    resource: &Resource,
    instance: ProgId,
    scan_end: ScanEnd,
) -> Result<(), AllocError>
    requires { instance.0 < length (core.plant_of resource.now).instances }
    ensures { (h : History) → core.Agrees resource.now h →
        OnOk result (written out.new.items line.new ≡ written out.old.items line.old ++ program_line (core.plant_of resource.now) instance
        ((plant_state.state_of (core.plant_of resource.now) h).instance_state instance.0) scan_end) }
{
    put_program(line, out, &resource.program(instance), scan_end)
}

// A line for each instance that the answer tells of.
#[inline(always)]
fn put_programs(
    line: &mut Line,
    out: &mut Vec<u8>,
    memory: &mut KeptLines,
    resource: &Resource,
    answer: &Answer,
) -> Result<(), AllocError>
    ensures lines { (h : History) → core.Agrees resource.now h → Fits (core.plant_of resource.now) memory.old →
        OnOk result (written out.new.items line.new ≡ written out.old.items line.old
        ++ program_lines (core.plant_of resource.now) (plant_state.state_of (core.plant_of resource.now) h).instance_state answer.now) }
    ensures fits { Fits (core.plant_of resource.now) memory.old → Fits (core.plant_of resource.now) memory.new }
{
    let Answer::Scanned { .. } = answer else {
        return Ok(());
    };
    for k in 0..resource.plant().instances().len() {
        match scan_end_in(answer, ProgId(k as u8)) {
            Some(ScanEnd::Ran) => put_ran(line, out, memory, resource, ProgId(k as u8))?,
            Some(scan_end) => put_ended(line, out, resource, ProgId(k as u8), scan_end)?,
            None => {}
        }
    }
    Ok(())
}

// The line of a scan that hit no breakpoint, of a task without overruns, put together; what is written behind the instant is kept.
#[cold]
#[inline(never)]
fn put_new_scan(
    line: &mut Line,
    out: &mut Vec<u8>,
    memory: &mut KeptLines,
    plant: &Plant,
    timed: (TaskId, i64),
) -> Result<(), AllocError>
    ensures line { OnOk result (written out.new.items line.new ≡ written out.old.items line.old
        ++ scanned_line timed.1 (task_name plant.now timed.0) 0) }
    ensures fits { Fits plant.now memory.old → Fits plant.now memory.new }
{
    let (task, t) = timed;
    memory.keep_tasks(plant, task)?;
    put_scan(line, out, t, plant.task_name(task), 0)
}

// The same: as it is kept, or else put together.
#[inline(always)]
fn put_plain_scan(
    line: &mut Line,
    out: &mut Vec<u8>,
    memory: &mut KeptLines,
    plant: &Plant,
    timed: (TaskId, i64),
) -> Result<(), AllocError>
    ensures line { Fits plant.now memory.old → OnOk result (written out.new.items line.new ≡ written out.old.items line.old
        ++ scanned_line timed.1 (task_name plant.now timed.0) 0) }
    ensures fits { Fits plant.now memory.old → Fits plant.now memory.new }
{
    let (task, t) = timed;
    if let Some(text) = memory.task(task)
        && text.is_kept()
    {
        return text.put_behind_time(line, out, t);
    }
    put_new_scan(line, out, memory, plant, timed)
}

// The line of an accepted command itself, at the run instant.
#[tactic(auto, unfolding(crate::specs::Commands::command_line, crate::specs::Private::Pieces::scanned_line))]
#[inline(always)]
fn put_first(
    line: &mut Line,
    out: &mut Vec<u8>,
    memory: &mut KeptLines,
    debugger: &Debugger,
    accepted: &Accepted<'_>,
) -> Result<(), AllocError>
    ensures line { (h : CommandHistory) → Agrees debugger.now h → Fits (plant_of debugger.now) memory.old →
        OnOk result (written out.new.items line.new ≡ written out.old.items line.old
        ++ command_line (steered_by debugger.now) accepted.now.command.now
        (state_of (steered_by debugger.now).plant (steered_by debugger.now).table h).clock.instant accepted.now.answer.now) }
    ensures fits { Fits (plant_of debugger.now) memory.old → Fits (plant_of debugger.now) memory.new }
{
    let t = debugger.run_instant();
    let Accepted { command, answer } = *accepted;
    if let Command::Scan(task) = command
        && let Answer::Scanned {
            overruns: 0,
            hit: false,
            ..
        } = answer
    {
        let plant = debugger.resource().plant();
        return put_plain_scan(line, out, memory, plant, (*task, t));
    }
    put_command(line, out, debugger, t, accepted)
}

// The lines of an accepted command.
#[inline(always)]
fn put_accepted(
    line: &mut Line,
    out: &mut Vec<u8>,
    memory: &mut KeptLines,
    debugger: &Debugger,
    accepted: &Accepted<'_>,
) -> Result<(), AllocError>
    ensures lines { (h : CommandHistory) → Agrees debugger.now h → Fits (plant_of debugger.now) memory.old →
        OnOk result (written out.new.items line.new ≡ written out.old.items line.old ++ lines_of debugger.now h accepted.now.command.now (Ok accepted.now.answer.now)) }
    ensures fits { Fits (plant_of debugger.now) memory.old → Fits (plant_of debugger.now) memory.new }
{
    put_first(line, out, memory, debugger, accepted)?;
    put_programs(line, out, memory, debugger.resource(), accepted.answer)
}

// The lines of an accepted command, at the end of the page.
#[inline(always)]
fn put_accepted_on(
    page: &mut Page,
    memory: &mut KeptLines,
    debugger: &Debugger,
    command: &Command,
    answer: &Answer,
) -> Result<(), AllocError>
    ensures lines { (h : CommandHistory) → Agrees debugger.now h → Fits (plant_of debugger.now) memory.old →
        OnOk result (page.new ≡ page.old ++ lines_of debugger.now h command.now (Ok answer.now)) }
    ensures fits { Fits (plant_of debugger.now) memory.old → Fits (plant_of debugger.now) memory.new }
{
    page.line.reserve(&mut page.text, ANSWER)?;
    put_accepted(
        &mut page.line,
        &mut page.text,
        memory,
        debugger,
        &Accepted { command, answer },
    )
}

// The line of a refused command, at the end of the page.
#[cold]
#[inline(never)]
#[tactic(auto, using(sfc_page::proofs::Lines::written_none))]
fn put_refused_on(page: &mut Page, debugger: &Debugger, refusal: Refusal) -> Result<(), AllocError>
    ensures { OnOk result (page.new ≡ page.old ++ refusal_line (plant_of debugger.now) refusal) }
{
    page.line.pass_on(&mut page.text)?;
    let plant = debugger.resource().plant();
    append_refusal(page.alloc, &mut page.text, plant, refusal)
}

/// Puts the lines of a command that was answered so at the end of the page; the debugger has seen it. What is put so again and again
/// is kept in the memory, which has to fit the plant. The one error is that memory was refused; then a front of the lines may stand
/// there.
#[inline(always)]
pub fn put_answer(
    page: &mut Page,
    memory: &mut KeptLines,
    debugger: &Debugger,
    command: &Command,
    answer: &Result<Answer, Refusal>,
) -> Result<(), AllocError>
    ensures lines { (h : CommandHistory) → Agrees debugger.now h → Fits (plant_of debugger.now) memory.old → OnOk result (page.new ≡ page.old
        ++ lines_at (steered_by debugger.now)
        (state_of (steered_by debugger.now).plant (steered_by debugger.now).table h) command.now answer.now) }
    ensures fits { Fits (plant_of debugger.now) memory.old → Fits (plant_of debugger.now) memory.new }
{
    match answer {
        Ok(answer) => put_accepted_on(page, memory, debugger, command, answer),
        Err(refusal) => put_refused_on(page, debugger, *refusal),
    }
}

// The lines of an accepted command, with nothing kept.
#[tactic(auto, using(sfc_page::proofs::Lines::written_none))]
fn append_accepted(
    out: &mut Vec<u8>,
    debugger: &Debugger,
    command: &Command,
    answer: &Answer,
) -> Result<(), AllocError>
    ensures { (h : CommandHistory) → Agrees debugger.now h →
        OnOk result (out.new.items ≡ out.old.items ++ lines_of debugger.now h command.now (Ok answer.now)) }
{
    let mut line = Line::new();
    let mut memory = KeptLines::none();
    let accepted = Accepted { command, answer };
    put_accepted(&mut line, out, &mut memory, debugger, &accepted)?;
    line.pass_on(out)
}

/// Puts the lines of a command at the end that was answered so; the debugger has seen it. The one error is that memory was refused;
/// then a front of them may stand there.
pub fn append_answer(
    alloc: Global,
    out: &mut Vec<u8>,
    debugger: &Debugger,
    command: Command,
    answer: Result<Answer, Refusal>,
) -> Result<(), AllocError>
    ensures { (h : CommandHistory) → Agrees debugger.now h → OnOk result (out.new.items ≡ out.old.items
        ++ lines_at (steered_by debugger.now) (state_of (steered_by debugger.now).plant (steered_by debugger.now).table h) command answer) }
{
    match answer {
        Err(refusal) => append_refusal(alloc, out, debugger.resource().plant(), refusal),
        Ok(answer) => append_accepted(out, debugger, &command, &answer),
    }
}
