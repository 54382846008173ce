//! What is written of a run.

ghost use Rattle.std.specs.Prelude.{◌≡◌, ◌++◌, Option, Some, OnOk};
ghost use Rattle.sfc_output.specs.sfc_debug.Agreement.{Agrees};
ghost use Rattle.sfc_output.specs.sfc_debug.Histories.{CommandHistory, TimedCommand};
ghost use Rattle.sfc_output.specs.sfc_debug.States.{DebugState};
ghost use Rattle.sfc_output.specs.sfc_debug.Steered.{Steered, steered_by};
ghost use Rattle.sfc_output.specs.Output.{Lines, Verdict, debugger_of};
ghost use Rattle.sfc_replay.specs.Reports.{HasAnswered};

use crate::sfc_debug::debugger::Debugger;
use crate::sfc_debug::timed::Timed;
use sfc_events::command::Answer;
use sfc_events::refusal::Refusal;
use sfc_page::page::Page;
use std::alloc::{AllocError, Global};

/// What is written of a run: of each command with its answer, and of how the debugger stands at the end. For each plant and table of
/// conditions the member `lines` says what that is, where a rule says it; `fits` whether what the report has kept is theirs; and `agrees`
/// whether it agrees with the commands that the debugger has accepted. The one error of each call is that memory was refused; then a
/// front of what is written may stand there.
pub trait Report {
    ghost lines: { Steered → Option (Lines TimedCommand Verdict DebugState) };

    ghost fits: { Self → Steered → Type 0 };

    ghost agrees: { Self → Steered → CommandHistory → Type 0 };

    /// Puts at the end of the page what is written of a command that was answered so; the debugger has seen it.
    fn put_answer(
        &mut self,
        page: &mut Page,
        debugger: &Debugger,
        timed: &Timed,
        answer: &Result<Answer, Refusal>,
    ) -> Result<(), AllocError>
        requires fits { fits self.old (steered_by debugger.now) }
        ensures fits { fits self.new (steered_by debugger.now) }
        ensures agrees { (h : CommandHistory) → HasAnswered debugger.now h timed.now answer.now → agrees self.old (steered_by debugger.now) h →
            OnOk result (agrees self.new (steered_by debugger.now) ((debugger_of (steered_by debugger.now)).after h timed.now)) }
        ensures lines { (rule : Lines TimedCommand Verdict DebugState) (h : CommandHistory) →
            lines (steered_by debugger.now) ≡ Some rule → Agrees debugger.now h → OnOk result (page.new ≡ page.old
            ++ rule.command ((debugger_of (steered_by debugger.now)).state h) timed.now answer.now) };

    /// Puts at the end what is written after the last command.
    fn append_closing(
        &mut self,
        alloc: Global,
        out: &mut Vec<u8>,
        debugger: &Debugger,
    ) -> Result<(), AllocError>
        requires fits { fits self.old (steered_by debugger.now) }
        ensures fits { fits self.new (steered_by debugger.now) }
        ensures agrees { (h : CommandHistory) → agrees self.old (steered_by debugger.now) h → agrees self.new (steered_by debugger.now) h }
        ensures lines { (rule : Lines TimedCommand Verdict DebugState) (h : CommandHistory) →
            lines (steered_by debugger.now) ≡ Some rule → Agrees debugger.now h → OnOk result (out.new.items ≡ out.old.items
            ++ rule.closing ((debugger_of (steered_by debugger.now)).state h)) };
}
