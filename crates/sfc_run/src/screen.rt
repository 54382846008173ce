//! What is shown of a run where it changes.

ghost use Rattle.std.specs.Prelude.{◌≡◌, ◌++◌, ◌∷◌, ◌||◌, List, ℕ, Ok, OnOk, true};
ghost use Rattle.std.specs.Bool.{OnTrue};
ghost use Rattle.sfc_control.specs.sfc_debug.Agreement.{Agrees};
ghost use Rattle.sfc_control.specs.sfc_debug.Histories.{CommandHistory};
ghost use Rattle.sfc_control.specs.sfc_debug.Openings.{IsOpeningFor};
ghost use Rattle.sfc_control.specs.sfc_debug.Steered.{steered_by};
ghost use Rattle.sfc_replay.specs.sfc_output.Output as output;
ghost use Rattle.sfc_run.specs.Following.{AnswersSo, HasPast, command_of, debugger_in, is_level, newest_in, steered_in};
ghost use Rattle.sfc_run.specs.Screens as rules;

use crate::follower::{Follower, go_on_from};
use crate::losses::append_known;
use crate::sfc_debug::debugger::Debugger;
use crate::sfc_debug::opening::DebugOpening;
use crate::sfc_debug::timed::Timed;
use crate::sfc_output::command::append_row;
use sfc_events::command::{Answer, Command, TraceRow};
use sfc_events::instance_set::InstanceSet;
use sfc_page::append::append;
use sfc_panel::panel::{Panel, Passed};
use std::alloc::{AllocError, Global};

/// What is shown of a run where it changes.
#[derive(Drop)]
pub struct Shows {
    /// Whether what changes is shown.
    pub is_on: bool,
    /// What of that.
    pub panel: Panel,
    /// Lines that are shown where a fault ends the scan of a program, and at the end.
    pub at_end: Vec<u8>,
}

/// What is shown of a run where it changes, and a debugger that stands where the run stood before the next row.
pub struct Screen {
    /// What is shown.
    pub shows: Shows,
    before: Debugger,
}

// By hand, so that a caller that drops one proves one call.
impl Drop for Screen {
    fn drop(self) {
        let Screen {
            shows: _,
            before: _,
        } = self;
    }
}

// Whether a fault ended the scan of a program.
fn has_fault(answer: Answer) -> bool
    ensures { result ≡ rules.has_fault answer }
{
    match answer {
        Answer::Scanned { faulted, .. } => !faulted.is_empty(),
        _ => false,
    }
}

// Whether it is the end of a run.
pub(crate) fn is_end(command: Command) -> bool
    ensures { result ≡ rules.is_end command }
{
    matches!(command, Command::End)
}

// Whether a fault ended the scan of a program, or the run ends.
fn closes(row: TraceRow) -> bool
    ensures { result ≡ rules.closes row }
{
    has_fault(row.answer) || is_end(row.command)
}

// A row, and below it what is shown of it, where something is.
fn append_headed(
    out: &mut Vec<u8>,
    debugger: &Debugger,
    row: TraceRow,
    shown: &[u8],
) -> Result<(), AllocError>
    ensures { OnOk result (out.new.items ≡ out.old.items ++ rules.headed (steered_by debugger.now) row shown.now) }
{
    if shown.is_empty() {
        return Ok(());
    }
    append_row(out, debugger, row)?;
    append(out, shown)
}

// The lines that are shown at the end, where a row closes.
fn append_closing(out: &mut Vec<u8>, at_end: &[u8], row: TraceRow) -> Result<(), AllocError>
    ensures { OnOk result (out.new.items ≡ out.old.items ++ rules.closing_text (rules.closes row) at_end.now) }
{
    if closes(row) {
        append(out, at_end)
    } else {
        Ok(())
    }
}

// What has changed between two debuggers, where that is known.
fn append_changed(
    alloc: Global,
    out: &mut Vec<u8>,
    panel: &Panel,
    between: (&Debugger, &Debugger),
    answer: &Answer,
) -> Result<(), AllocError>
    ensures { (h behind : CommandHistory) → steered_by between.entry.1.now ≡ steered_by between.entry.0.now → Agrees between.entry.0.now h →
        Agrees between.entry.1.now behind → OnOk result (out.new.items ≡ out.old.items
        ++ rules.changes_text panel.now (steered_by between.entry.1.now) h behind answer.now) }
{
    let (before, behind) = between;
    let passed = Passed {
        before: before.resource(),
        behind: behind.resource(),
    };
    panel.append_changes(alloc, out, passed, answer)
}

// An answer by which each program is shown that stands otherwise than before.
fn of_each() -> Answer
    ensures { result ≡ rules.of_each }
{
    Answer::Scanned {
        ran: InstanceSet { bits: u64::MAX },
        faulted: InstanceSet::none(),
        skipped: InstanceSet::none(),
        overruns: 0,
        hit: false,
    }
}

// What has changed between two debuggers, below the line that tells behind how many commands it is known again.
fn append_again(
    alloc: Global,
    out: &mut Vec<u8>,
    panel: &Panel,
    between: (&Debugger, &Debugger),
    count: u64,
) -> Result<(), AllocError>
    ensures adds { OnOk result ((some : List ℕ) × (out.new.items ≡ out.old.items ++ some)) }
    ensures shown { (h behind : CommandHistory) → steered_by between.entry.1.now ≡ steered_by between.entry.0.now → Agrees between.entry.0.now h →
        Agrees between.entry.1.now behind → OnOk result (out.new.items ≡ out.old.items
        ++ rules.again_text panel.now (steered_by between.entry.1.now) count h behind) }
{
    let mut shown = Vec::new(alloc);
    append_changed(alloc, &mut shown, panel, between, &of_each())?;
    append_known(out, count)?;
    append(out, &shown)
}

// The same, where changes are shown.
fn append_if(
    alloc: Global,
    out: &mut Vec<u8>,
    shows: &Shows,
    between: (&Debugger, &Debugger),
    count: u64,
) -> Result<(), AllocError>
    ensures adds { OnOk result ((some : List ℕ) × (out.new.items ≡ out.old.items ++ some)) }
    ensures shown { (h behind : CommandHistory) → steered_by between.entry.1.now ≡ steered_by between.entry.0.now → Agrees between.entry.0.now h →
        Agrees between.entry.1.now behind → OnOk result (out.new.items ≡ out.old.items
        ++ rules.again_if shows.now (steered_by between.entry.1.now) count h behind) }
{
    let is_on = shows.is_on;
    if !is_on {
        return Ok(());
    }
    append_again(alloc, out, &shows.panel, between, count)
}

#[tactic(auto, unfolding(crate::specs::Screens::before_in))]
impl Screen {
    ghost use Rattle.sfc_run.specs.Screens.{Sees, before_in};

    /// It shows what changes from the first command on, with a debugger that was told nothing.
    pub fn new(shows: Shows, before: Debugger) -> Screen
        ensures shows { result.shows ≡ shows }
        ensures before { before_in result ≡ before }
    {
        Screen { shows, before }
    }

    // Tells the debugger the command of a row.
    fn pass(&mut self, row: TraceRow)
        ensures shows { self.new.shows ≡ self.old.shows }
        ensures steered { steered_by (before_in self.new) ≡ steered_by (before_in self.old) }
        ensures agrees { (h : CommandHistory) → Agrees (before_in self.old) h →
            AnswersSo (steered_by (before_in self.old)) h row → Agrees (before_in self.new) (command_of row ∷ h) }
    {
        let timed = Timed {
            command: row.command,
            raw: row.raw,
        };
        let _ = self.before.obey(timed);
    }

    /// Puts at the end what is shown of the next row, which the follower has taken: where something is, its line as `replay` writes it,
    /// and below it the lines of what has changed by it; and then, where a fault ended the scan of a program, and at the end, the lines
    /// for that. Where the follower isn't level, it isn't known what has changed, and nothing of it is shown.
    ///
    /// The one error is that memory was refused; then a front of it may stand there.
    pub fn show(
        &mut self,
        alloc: Global,
        out: &mut Vec<u8>,
        follower: &Follower,
        row: TraceRow,
    ) -> Result<(), AllocError>
        ensures shows { self.new.shows ≡ self.old.shows }
        ensures steered { steered_by (before_in self.new) ≡ steered_by (before_in self.old) }
        ensures adds { OnOk result ((some : List ℕ) × (out.new.items ≡ out.old.items ++ some)) }
        ensures shown { (h behind : CommandHistory) → Sees self.old follower.now row h behind → OnOk result (
            (out.new.items ≡ out.old.items ++ rules.shown_text self.old.shows (is_level follower.now) (steered_in follower.now) h behind row)
            × (self.new.shows.is_on ≡ true → is_level follower.now ≡ true → Agrees (before_in self.new) behind)) }
    {
        let sees = self.shows.is_on && follower.is_level();
        let mut shown = Vec::new(alloc);
        if sees {
            let between = (&self.before, follower.debugger());
            append_changed(alloc, &mut shown, &self.shows.panel, between, &row.answer)?;
        }
        append_closing(&mut shown, &self.shows.at_end, row)?;
        append_headed(out, follower.debugger(), row, &shown)?;
        if sees {
            self.pass(row);
        }
        Ok(())
    }

    /// Puts at the end what is shown where a follower has gone on from an opening: where changes are shown, the line that it is known again
    /// how all stands, and below it what stands otherwise than when it was known last. The debugger goes on from the opening too.
    ///
    /// The one error is that memory was refused; then a front of it may stand there.
    pub fn resume(
        &mut self,
        alloc: Global,
        out: &mut Vec<u8>,
        follower: &Follower,
        opening: &DebugOpening,
    ) -> Result<(), AllocError>
        requires { IsOpeningFor (steered_by (before_in self.old)).plant opening.now }
        ensures shows { self.new.shows ≡ self.old.shows }
        ensures steered { steered_by (before_in self.new) ≡ steered_by (before_in self.old) }
        ensures agrees { (h : CommandHistory) → HasPast (steered_by (before_in self.old)) opening.now h →
            OnOk result (Agrees (before_in self.new) h) }
        ensures adds { OnOk result ((some : List ℕ) × (out.new.items ≡ out.old.items ++ some)) }
        ensures shown { (h behind : CommandHistory) → steered_by (before_in self.old) ≡ steered_in follower.now →
            Agrees (before_in self.old) h → Agrees (debugger_in follower.now) behind → OnOk result (out.new.items ≡ out.old.items
            ++ rules.again_if self.old.shows (steered_in follower.now) (newest_in follower.now) h behind) }
    {
        let between = (&self.before, follower.debugger());
        append_if(alloc, out, &self.shows, between, follower.newest())?;
        go_on_from(&mut self.before, opening);
        Ok(())
    }
}
