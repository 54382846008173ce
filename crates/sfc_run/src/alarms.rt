//! What a run tells beside its lines: scans that a fault ended, breakpoints that were hit, overruns, rows of the feed that were lost; what
//! it shows where it changes; and what it records.

ghost use Rattle.std.specs.Prelude.{◌≡◌, ◌<◌, ◌++◌, List, ℕ, OnOk, length};
ghost use Rattle.sfc_events.specs.History.{History};
ghost use Rattle.sfc_events.specs.InstanceSets.{has};
ghost use Rattle.sfc_control.specs.sfc_debug.Agreement.{Agrees};
ghost use Rattle.sfc_control.specs.sfc_debug.Histories.{CommandHistory};
ghost use Rattle.sfc_control.specs.sfc_debug.Steered.{steered_by};
ghost use Rattle.sfc_control.specs.sfc_debug.sfc_core.Agreement as core;
ghost use Rattle.sfc_control.specs.sfc_debug.sfc_core.PlantState as plant_state;
ghost use Rattle.sfc_replay.specs.sfc_output.Output as output;
ghost use Rattle.sfc_run.specs.Alarms as rules;
ghost use Rattle.sfc_run.specs.Alarms.{IsAlarmed, IsTold};
ghost use Rattle.sfc_run.specs.Following.{debugger_in, is_level, steered_in};
ghost use Rattle.sfc_run.specs.Losses.{losses_after, told_with};
ghost use Rattle.sfc_run.specs.Screens.{before_in};

use crate::follower::Follower;
use crate::losses::Losses;
use crate::overruns::OverrunsTold;
use crate::points::Points;
use crate::recording::Recording;
use crate::screen::{Screen, is_end};
use crate::sfc_core::resource::Resource;
use crate::sfc_debug::debugger::Debugger;
use crate::sfc_output::answer::append_answer;
use crate::sfc_output::command::append_row;
use crate::sfc_output::fault_place::append_faulted;
use crate::timing::Timing;
use sfc_base::ids::ProgId;
use sfc_events::command::{Answer, TraceRow};
use sfc_events::instance_set::InstanceSet;
use sfc_page::append::{append, append_number};
use sfc_plant::plant::Plant;
use std::alloc::{AllocError, Global};

/// What stands behind the alarms of a run: a debugger that follows it, what was told of overruns, what is shown, and what is recorded.
#[derive(Drop)]
pub struct Alarms {
    /// The debugger that follows.
    pub follower: Follower,
    /// What was told of overruns.
    pub overruns: OverrunsTold,
    /// What is still to be told of lost rows.
    pub losses: Losses,
    /// What is shown where it changes.
    pub screen: Screen,
    /// Whether commands are recorded.
    pub recording: Recording,
    /// The commands whose breakpoints are set.
    pub points: Points,
    /// How late scans were, where that is measured.
    pub timing: Timing,
}

/// What rows come to beside their lines.
#[derive(Drop)]
pub struct Told {
    /// What is told of them.
    pub alarms: Vec<u8>,
    /// What is shown of them.
    pub changes: Vec<u8>,
    /// What is recorded of them.
    pub record: Vec<u8>,
}

// Whether a program's scan ended with a fault, or a breakpoint was hit.
fn is_alarm(answer: Answer) -> bool
    ensures { result ≡ rules.is_alarm answer }
{
    match answer {
        Answer::Scanned { faulted, hit, .. } => !faulted.is_empty() || hit,
        _ => false,
    }
}

// Whether what is told of a row doesn't wait.
fn is_urgent(row: TraceRow) -> bool
    ensures { result ≡ rules.is_urgent row }
{
    is_alarm(row.answer) || is_end(row.command)
}

// How many rows were lost, where some were.
pub(crate) fn append_lost(out: &mut Vec<u8>, lost: u64) -> Result<(), AllocError>
    ensures { OnOk result (out.new.items ≡ out.old.items ++ rules.lost_text lost) }
{
    if lost == 0 {
        return Ok(());
    }
    append(out, b"lost ")?;
    append_number(out, lost)?;
    append(out, b" commands\n")
}

// The same, where it is due with a row, before which so many more were lost.
fn append_losses(
    out: &mut Vec<u8>,
    losses: &mut Losses,
    lost: u64,
    row: TraceRow,
) -> Result<(), AllocError>
    ensures losses { losses.new ≡ losses_after losses.old lost row.t (rules.is_urgent row) }
    ensures text { OnOk result (out.new.items ≡ out.old.items ++ rules.lost_text (told_with losses.old lost row.t (rules.is_urgent row))) }
{
    let told = losses.told_with(lost, row.t, is_urgent(row));
    append_lost(out, told)
}

// The number of a row, and the lines that a replay writes for its command.
fn append_whole(
    alloc: Global,
    out: &mut Vec<u8>,
    debugger: &Debugger,
    row: TraceRow,
) -> Result<(), AllocError>
    ensures { (h : CommandHistory) → Agrees debugger.now h → OnOk result (out.new.items ≡ out.old.items
        ++ rules.whole_text (steered_by debugger.now) ((output.debugger_of (steered_by debugger.now)).state h) row) }
{
    append_number(out, row.number)?;
    append(out, b" ")?;
    append_answer(alloc, out, debugger, row.command, Ok(row.answer))
}

// The line of a program, where its scan ended with a fault.
fn append_fault(
    out: &mut Vec<u8>,
    plant: &Plant,
    program: ProgId,
    faulted: InstanceSet,
) -> Result<(), AllocError>
    requires { program.0 < length plant.now.instances }
    ensures { OnOk result (out.new.items ≡ out.old.items ++ rules.fault_line (has faulted program.0) plant.now program.0) }
{
    if !faulted.contains(program) {
        return Ok(());
    }
    append(out, b"  ")?;
    append(out, plant.instance_name(program))?;
    append(out, b" fault\n")
}

// A line for each program whose scan ended with a fault.
fn append_faults(out: &mut Vec<u8>, plant: &Plant, faulted: InstanceSet) -> Result<(), AllocError>
    ensures { OnOk result (out.new.items ≡ out.old.items ++ rules.fault_lines plant.now faulted (length plant.now.instances)) }
{
    for k in 0..plant.instances().len() {
        append_fault(out, plant, ProgId(k as u8), faulted)?;
    }
    Ok(())
}

// The same by an answer.
fn append_all_faults(out: &mut Vec<u8>, plant: &Plant, answer: Answer) -> Result<(), AllocError>
    ensures { OnOk result (out.new.items ≡ out.old.items ++ rules.faulted_text plant.now answer) }
{
    match answer {
        Answer::Scanned { faulted, .. } => append_faults(out, plant, faulted),
        _ => Ok(()),
    }
}

// Where the fault of a program is, where its scan ended with one.
fn append_ended(
    out: &mut Vec<u8>,
    resource: &Resource,
    program: ProgId,
    faulted: InstanceSet,
) -> Result<(), AllocError>
    requires { program.0 < length (core.plant_of resource.now).instances }
    ensures { (h : History) → core.Agrees resource.now h → OnOk result (out.new.items ≡ out.old.items
        ++ rules.ended_line (has faulted program.0) (core.plant_of resource.now)
        (plant_state.state_of (core.plant_of resource.now) h).instance_state program.0) }
{
    if !faulted.contains(program) {
        return Ok(());
    }
    append_faulted(out, &resource.program(program))
}

// A line for each program whose scan ended with a fault.
fn append_each_ended(
    out: &mut Vec<u8>,
    resource: &Resource,
    faulted: InstanceSet,
) -> Result<(), AllocError>
    ensures { (h : History) → core.Agrees resource.now h → OnOk result (out.new.items ≡ out.old.items
        ++ rules.ended_lines (core.plant_of resource.now) (plant_state.state_of (core.plant_of resource.now) h).instance_state faulted
        (length (core.plant_of resource.now).instances)) }
{
    for k in 0..resource.plant().instances().len() {
        append_ended(out, resource, ProgId(k as u8), faulted)?;
    }
    Ok(())
}

// The same by an answer.
fn append_all_ended(
    out: &mut Vec<u8>,
    resource: &Resource,
    answer: Answer,
) -> Result<(), AllocError>
    ensures { (h : History) → core.Agrees resource.now h → OnOk result (out.new.items ≡ out.old.items
        ++ rules.ended_text (core.plant_of resource.now) (plant_state.state_of (core.plant_of resource.now) h).instance_state answer) }
{
    match answer {
        Answer::Scanned { faulted, .. } => append_each_ended(out, resource, faulted),
        _ => Ok(()),
    }
}

// The lines of a scan, and where its faults are.
fn append_level(
    alloc: Global,
    out: &mut Vec<u8>,
    debugger: &Debugger,
    row: TraceRow,
) -> Result<(), AllocError>
    ensures { (h : CommandHistory) → Agrees debugger.now h → OnOk result (out.new.items ≡ out.old.items
        ++ rules.level_text (steered_by debugger.now) ((output.debugger_of (steered_by debugger.now)).state h) row) }
{
    append_whole(alloc, out, debugger, row)?;
    append_all_ended(out, debugger.resource(), row.answer)
}

// A scan that is an alarm.
fn append_scan(
    alloc: Global,
    out: &mut Vec<u8>,
    follower: &Follower,
    row: TraceRow,
) -> Result<(), AllocError>
    ensures { (h : CommandHistory) → Agrees (debugger_in follower.now) h → OnOk result (out.new.items ≡ out.old.items
        ++ rules.scan_text (is_level follower.now) (steered_by (debugger_in follower.now))
        ((output.debugger_of (steered_by (debugger_in follower.now))).state h) row) }
{
    if follower.is_level() {
        append_level(alloc, out, follower.debugger(), row)
    } else {
        append_row(out, follower.debugger(), row)?;
        append_all_faults(out, follower.debugger().resource().plant(), row.answer)
    }
}

// The line of a scan, where its overruns are due.
fn append_overruns(
    out: &mut Vec<u8>,
    follower: &Follower,
    row: TraceRow,
    is_due: bool,
) -> Result<(), AllocError>
    ensures { OnOk result (out.new.items ≡ out.old.items ++ rules.overruns_text is_due (steered_in follower.now) row) }
{
    if is_due {
        append_row(out, follower.debugger(), row)
    } else {
        Ok(())
    }
}

// What is told of a row, where it is an alarm, or its overruns are due.
fn append_alarm(
    alloc: Global,
    out: &mut Vec<u8>,
    follower: &Follower,
    row: TraceRow,
    is_due: bool,
) -> Result<(), AllocError>
    ensures { (h : CommandHistory) → Agrees (debugger_in follower.now) h → OnOk result (out.new.items ≡ out.old.items
        ++ rules.told_text (is_level follower.now) is_due (steered_by (debugger_in follower.now))
        ((output.debugger_of (steered_by (debugger_in follower.now))).state h) row) }
{
    if is_alarm(row.answer) {
        append_scan(alloc, out, follower, row)
    } else {
        append_overruns(out, follower, row, is_due)
    }
}

impl Alarms {
    // Takes the next row of the feed, and puts at the end what is told of it.
    fn take_alarm(
        &mut self,
        alloc: Global,
        out: &mut Vec<u8>,
        row: TraceRow,
    ) -> Result<(), AllocError>
        ensures steered { steered_in self.new.follower ≡ steered_in self.old.follower }
        ensures screen { self.new.screen ≡ self.old.screen }
        ensures recording { self.new.recording ≡ self.old.recording }
        ensures told { (h : CommandHistory) → Agrees (debugger_in self.old.follower) h →
            OnOk result ((behind : CommandHistory) × (text : List ℕ) × (out.new.items ≡ out.old.items ++ text)
            × IsAlarmed self.old self.new row h behind text) }
    {
        let lost = self.follower.follow(row);
        let is_due = self.overruns.is_due(row);
        self.timing.note(row);
        self.points.note(row)?;
        append_losses(out, &mut self.losses, lost, row)?;
        append_alarm(alloc, out, &self.follower, row, is_due)
    }

    /// Takes the next row of the feed, and puts at the end what is told of it. A scan of a program that a fault ended, and one that hit a
    /// breakpoint, is told with all its lines, as a replay writes them: which program it is, the kind of the fault, and where the others
    /// stand; below them it is told where each fault is, as `append_faulted` says it. Overruns are told by the line of the scan, at most once a second for each task. Before all of this it is told how many rows
    /// were lost, if some were, at most once a second but for such a scan and END; from then on, how programs stand isn't known, and the
    /// line of the scan is told, with the names of the programs that ended with a fault.
    ///
    /// Beside it stands at the end what is shown of the row: what `Screen::show` says; and what is recorded of it: what `Recording::take` says.
    ///
    /// The one error is that memory was refused.
    pub fn take(&mut self, alloc: Global, told: &mut Told, row: TraceRow) -> Result<(), AllocError>
        ensures steered { steered_in self.new.follower ≡ steered_in self.old.follower }
        ensures before { steered_by (before_in self.new.screen) ≡ steered_by (before_in self.old.screen) }
        ensures told { (h : CommandHistory) → Agrees (debugger_in self.old.follower) h →
            OnOk result ((behind : CommandHistory) × (text : List ℕ) × (shown : List ℕ) × (recorded : List ℕ)
            × (told.new.alarms.items ≡ told.old.alarms.items ++ text) × (told.new.changes.items ≡ told.old.changes.items ++ shown)
            × (told.new.record.items ≡ told.old.record.items ++ recorded) × IsTold self.old self.new row h behind text shown recorded) }
    {
        self.take_alarm(alloc, &mut told.alarms, row)?;
        self.screen
            .show(alloc, &mut told.changes, &self.follower, row)?;
        self.recording
            .take(alloc, &mut told.record, &self.follower, row)
    }
}
