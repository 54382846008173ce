//! Where a debugger that follows a run goes on behind lost rows of the feed.

ghost use Rattle.std.specs.Bool.{OnTrue};
ghost use Rattle.std.specs.Prelude.{◌≡◌, ◌++◌, [], List, ℕ, None, OnOk, Some, false};
ghost use Rattle.sfc_control.specs.declared.entry.Entry.{Entry};
ghost use Rattle.sfc_control.specs.LegalHistory.{commands_of};
ghost use Rattle.sfc_control.specs.Saved.{IsSavedAfter};
ghost use Rattle.sfc_control.specs.sfc_debug.Openings.{IsOpeningFor};
ghost use Rattle.sfc_control.specs.sfc_debug.Steered.{Steered, steered_by};
ghost use Rattle.sfc_run.specs.Alarms.{Hears, IsSet};
ghost use Rattle.sfc_run.specs.Following.{is_level, newest_in, steered_in, steered_on};
ghost use Rattle.sfc_run.specs.Resuming.{IsReady};
ghost use Rattle.sfc_run.specs.Screens.{before_in};

use crate::alarms::{Alarms, Told, append_lost};
use crate::losses::append_known;
use crate::sfc_debug::opening::DebugOpening;
use sfc_control::controller::Controller;
use sfc_control::opened_with::OpenedWith;
use std::alloc::{AllocError, Global};
use std::sync::Wait;

/// An opening that a run saves where rows of its feed were lost, and from which the debugger that follows goes on, once it has been told of
/// the last command that stands behind the opening.
pub struct Resumption {
    opening: DebugOpening,
    // Behind how many commands it was saved, where it waits for the row of the last of them.
    behind: Option<u64>,
}

// By hand, so that a caller that drops one proves one call.
impl Drop for Resumption {
    fn drop(self) {
        let Resumption {
            opening: _,
            behind: _,
        } = self;
    }
}

// All goes on from an opening that the run saved behind as many commands as the newest row tells: the debuggers, and what is told and shown.
fn go_on(
    alloc: Global,
    told: &mut Told,
    alarms: &mut Alarms,
    opening: &DebugOpening,
) -> Result<(), AllocError>
    requires sizes { IsOpeningFor (steered_in alarms.old.follower).plant opening.now }
    requires alike { steered_by (before_in alarms.old.screen) ≡ steered_in alarms.old.follower }
    ensures steered { steered_in alarms.new.follower ≡ steered_in alarms.old.follower }
    ensures alike { steered_by (before_in alarms.new.screen) ≡ steered_in alarms.new.follower }
    ensures set { (es : List Entry) → is_level alarms.old.follower ≡ false →
        IsSavedAfter (steered_in alarms.old.follower).plant (steered_in alarms.old.follower).table opening.now
        (newest_in alarms.old.follower) es → OnOk result ((text : List ℕ) × (shown : List ℕ)
        × (told.new.alarms.items ≡ told.old.alarms.items ++ text) × (told.new.changes.items ≡ told.old.changes.items ++ shown)
        × (told.new.record.items ≡ told.old.record.items) × IsSet alarms.old alarms.new (commands_of es) text shown) }
{
    alarms.follower.resume(opening);
    alarms.recording.lose();
    alarms.points.lose();
    append_lost(&mut told.alarms, alarms.losses.waiting)?;
    append_known(&mut told.alarms, alarms.follower.newest())?;
    alarms.losses.clear();
    alarms
        .screen
        .resume(alloc, &mut told.changes, &alarms.follower, opening)
}

#[tactic(auto, unfolding(crate::specs::Resuming::opening_in, crate::specs::Resuming::behind_in))]
impl Resumption {
    ghost use Rattle.sfc_run.specs.Resuming.{opening_in, behind_in};

    /// Nothing waits.
    pub fn new(opening: DebugOpening) -> Resumption
        ensures opening { opening_in result ≡ opening }
        ensures behind { behind_in result ≡ None }
    {
        Resumption {
            opening,
            behind: None,
        }
    }

    /// Unless it goes on as it is, or something waits, what all commands leave is saved that the run has accepted so far; whether that was
    /// so. It waits for the lock of the run.
    pub fn catch_up<L: OpenedWith, R: Wait>(
        &mut self,
        rt: &R,
        controller: &Controller<L>,
        goes_on: bool,
    ) -> bool
        requires { IsReady (steered_on L.plant L.table) self.old }
        ensures { IsReady (steered_on L.plant L.table) self.new }
    {
        if goes_on || self.behind.is_some() {
            return false;
        }
        let count = controller.save(rt, &mut self.opening);
        self.behind = Some(count);
        true
    }

    // Whether what waits was saved behind so many commands. Nothing waits any more then, nor where it was saved behind fewer.
    fn is_due(&mut self, newest: u64) -> bool
        ensures opening { opening_in self.new ≡ opening_in self.old }
        ensures ready { (steered : Steered) → IsReady steered self.old → IsReady steered self.new }
        ensures due { OnTrue result (behind_in self.old ≡ Some newest) }
    {
        let Some(count) = self.behind else {
            return false;
        };
        if count <= newest {
            self.behind = None;
        }
        count == newest
    }

    /// Where the follower isn't level, and what waits was saved behind as many commands as the newest row tells, it goes on from there: it is
    /// level, what was lost is told, and that it is known again how all stands; and what has changed meanwhile is shown, where that is wanted.
    ///
    /// The one error is that memory was refused.
    pub fn resume(
        &mut self,
        alloc: Global,
        told: &mut Told,
        alarms: &mut Alarms,
    ) -> Result<(), AllocError>
        requires ready { IsReady (steered_in alarms.old.follower) self.old }
        requires alike { steered_by (before_in alarms.old.screen) ≡ steered_in alarms.old.follower }
        ensures ready { IsReady (steered_in alarms.new.follower) self.new }
        ensures steered { steered_in alarms.new.follower ≡ steered_in alarms.old.follower }
        ensures alike { steered_by (before_in alarms.new.screen) ≡ steered_in alarms.new.follower }
        ensures hears { OnOk result (Hears alarms.old alarms.new [] told.old told.new) }
    {
        if alarms.follower.is_level() {
            return Ok(());
        }
        if !self.is_due(alarms.follower.newest()) {
            return Ok(());
        }
        go_on(alloc, told, alarms, &self.opening)
    }
}
