//! A debugger that follows a run.

ghost use Rattle.std.specs.Prelude.{◌≡◌, ◌-◌, ◌+◌, ◌∷◌, true};
ghost use Rattle.std.specs.Bool.{OnTrue, OnFalse};
ghost use Rattle.sfc_control.specs.sfc_debug.Agreement.{Agrees};
ghost use Rattle.sfc_control.specs.sfc_debug.Histories.{CommandHistory};
ghost use Rattle.sfc_control.specs.sfc_debug.Openings.{IsOpeningFor};
ghost use Rattle.sfc_control.specs.sfc_debug.Steered.{steered_by};
ghost use Rattle.sfc_run.specs.Following.{AnswersSo, HasPast, command_of};

use crate::sfc_debug::debugger::Debugger;
use crate::sfc_debug::opening::DebugOpening;
use crate::sfc_debug::timed::Timed;
use sfc_events::command::TraceRow;

/// A debugger that is told each command that the feed of a run tells, and so stands as the run's own does: a replica, over which all may be
/// asked that the run isn't to be disturbed for.
pub struct Follower {
    debugger: Debugger,
    newest: u64,
    // The raw instant of the newest row, in microseconds.
    raw: i64,
    is_level: bool,
}

// By hand, so that a caller that drops one proves one call.
impl Drop for Follower {
    fn drop(self) {
        let Follower {
            debugger: _,
            newest: _,
            raw: _,
            is_level: _,
        } = self;
    }
}

// Gives a debugger the command of a row; whether it answers what the run answered.
fn answers_so(debugger: &mut Debugger, row: TraceRow) -> bool
    ensures steered { steered_by debugger.new ≡ steered_by debugger.old }
    ensures same { (h : CommandHistory) → Agrees debugger.old h → OnTrue result (AnswersSo (steered_by debugger.old) h row) }
    ensures other { (h : CommandHistory) → Agrees debugger.old h → OnFalse result (AnswersSo (steered_by debugger.old) h row → ⊥) }
    ensures agrees { (h : CommandHistory) → Agrees debugger.old h → OnTrue result (Agrees debugger.new (command_of row ∷ h)) }
    ensures still { (h : CommandHistory) → Agrees debugger.old h → (behind : CommandHistory) × Agrees debugger.new behind }
{
    let timed = Timed {
        command: row.command,
        raw: row.raw,
    };
    match debugger.obey(timed) {
        Ok(answer) => answer == row.answer,
        Err(_) => false,
    }
}

/// A debugger goes on from an opening.
pub fn go_on_from(debugger: &mut Debugger, opening: &DebugOpening)
    requires { IsOpeningFor (steered_by debugger.old).plant opening.now }
    ensures steered { steered_by debugger.new ≡ steered_by debugger.old }
    ensures agrees { (h : CommandHistory) → HasPast (steered_by debugger.old) opening.now h → Agrees debugger.new h }
{
    debugger.restore(opening);
}

#[tactic(auto, unfolding(crate::specs::Following::debugger_in, crate::specs::Following::newest_in, crate::specs::Following::is_level))]
impl Follower {
    ghost use Rattle.sfc_run.specs.Following.{Follows, debugger_in, newest_in, is_level, steered_in};

    /// It follows from the first command on, with a debugger that was told nothing.
    pub fn new(debugger: Debugger) -> Follower
        ensures debugger { debugger_in result ≡ debugger }
        ensures newest { newest_in result ≡ 0 }
        ensures level { is_level result ≡ true }
    {
        Follower {
            debugger,
            newest: 0,
            raw: 0,
            is_level: true,
        }
    }

    /// Takes the next row of the feed; how many were lost between it and the one before. As long as none is, the debugger stands as the
    /// run's own does behind the row; behind a lost row it is told nothing, until it goes on from an opening.
    pub fn follow(&mut self, row: TraceRow) -> u64
        ensures lost { result ≡ row.number - (newest_in self.old + 1) }
        ensures steered { steered_in self.new ≡ steered_in self.old }
        ensures follows { (h : CommandHistory) → Agrees (debugger_in self.old) h →
            (behind : CommandHistory) × Follows self.old self.new row h behind }
    {
        let before = self.newest;
        self.newest = row.number;
        self.raw = row.raw;
        if self.is_level && before < row.number && row.number - before == 1 {
            self.is_level = answers_so(&mut self.debugger, row);
        } else {
            self.is_level = false;
        }
        row.number.saturating_sub(before).saturating_sub(1)
    }

    /// It goes on from an opening, and is level then: the run is to have saved it behind the newest row.
    pub fn resume(&mut self, opening: &DebugOpening)
        requires { IsOpeningFor (steered_in self.old).plant opening.now }
        ensures newest { newest_in self.new ≡ newest_in self.old }
        ensures steered { steered_in self.new ≡ steered_in self.old }
        ensures level { is_level self.new ≡ true }
        ensures agrees { (h : CommandHistory) → HasPast (steered_in self.old) opening.now h → Agrees (debugger_in self.new) h }
    {
        go_on_from(&mut self.debugger, opening);
        self.is_level = true;
    }

    /// The number of the newest row; 0 before the first.
    pub fn newest(&self) -> u64
        ensures { result ≡ newest_in self.now }
    {
        self.newest
    }

    /// The raw instant of the newest row, in microseconds; 0 before the first.
    pub fn raw(&self) -> i64 {
        self.raw
    }

    /// The debugger.
    pub fn debugger(&self) -> &Debugger
        ensures { result.now ≡ debugger_in self.now }
    {
        &self.debugger
    }

    /// Whether the debugger stands as the run's own does behind the newest row: no row was lost, and each command was answered as the run
    /// answered it, since the first one, or since it went on from an opening.
    pub fn is_level(&self) -> bool
        ensures { result ≡ is_level self.now }
    {
        self.is_level
    }
}
