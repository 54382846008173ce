//! A resource, as a handle holds it.

ghost use Rattle.std.specs.Prelude.{◌≡◌, ◌<◌, ◌≤◌, ◌⊎◌, ℕ, All, [], IfOk, None, OnErr, length, pos, slice_get};
ghost use Rattle.std.proofs.Props.{props};
ghost use Rattle.sfc_replay.specs.sfc_debug.Agreement.{Agrees, plant_of};
ghost use Rattle.sfc_replay.specs.sfc_debug.Histories.{CommandHistory};
ghost use Rattle.sfc_replay.specs.sfc_debug.Meaning.{IsAccepted};
ghost use Rattle.sfc_replay.specs.sfc_debug.Openings.{IsOpeningFor};
ghost use Rattle.sfc_replay.specs.sfc_debug.Steered.{steered_by};
ghost use Rattle.sfc_replay.specs.sfc_debug.Verdict.{history_by};
ghost use Rattle.sfc_debug.proofs.Openings.{opening_prop};
ghost use Rattle.sfc_session.specs.Sessions.{steered_after, waiting, waiting_verdict};

use crate::saved::Saved;
use crate::sfc_debug::break_condition::BreakCondition;
use crate::sfc_debug::debugger::Debugger;
use crate::sfc_debug::opening::DebugOpening;
use crate::sfc_debug::timed::Timed;
use crate::status::{NO_MEMORY, UNKNOWN};
use sfc_base::ticks::Ticks;
use sfc_events::command::{Answer, Point};
use sfc_events::refusal::Refusal;
use std::alloc::{AllocError, Global};

/// A resource that is steered by commands, the raw instant of the latest accepted one, in microseconds, and what was saved of it, by
/// numbers from 0.
pub struct Plc {
    debugger: Debugger,
    instant: i64,
    slots: Vec<Saved>,
    ghost fits: { All (λ saved. IsOpeningFor (plant_of debugger) saved.opening) slots.items } by { Prim.hlevel (props, opening_prop) },
}

// By hand, so that a caller that drops one proves one call.
impl Drop for Plc {
    fn drop(self) {
        let Plc {
            debugger: _,
            instant: _,
            slots: _,
        } = self;
    }
}

// A breakpoint with a condition, at a point and a raw instant.
fn obey_break(
    debugger: &mut Debugger,
    placed: (Point, i64),
    condition: BreakCondition,
) -> Result<Result<Answer, Refusal>, AllocError>
    ensures steered { IfOk result (λ answer. steered_by debugger.new ≡ steered_after answer (steered_by debugger.old) condition) }
    ensures answer { (h : CommandHistory) → IsAccepted (steered_by debugger.old).plant (steered_by debugger.old).table h →
        Agrees debugger.old h → IfOk result (λ answer. answer ≡ waiting_verdict (steered_by debugger.old) h placed condition) }
    ensures agrees { (h : CommandHistory) → IsAccepted (steered_by debugger.old).plant (steered_by debugger.old).table h →
        Agrees debugger.old h → IfOk result (λ answer. Agrees debugger.new
        (history_by answer (waiting (steered_by debugger.old) placed condition) h)) }
    ensures err_steered { OnErr result (steered_by debugger.new ≡ steered_by debugger.old) }
    ensures err { (h : CommandHistory) → Agrees debugger.old h → OnErr result (Agrees debugger.new h) }
{
    let (point, raw) = placed;
    let mut ticks = Ticks::new();
    debugger.break_when(point, condition, raw, &mut ticks)
}

impl Plc {
    ghost use Rattle.sfc_replay.specs.sfc_debug.Agreement.{Agrees};
    ghost use Rattle.sfc_replay.specs.sfc_debug.Histories.{CommandHistory};
    ghost use Rattle.sfc_replay.specs.sfc_debug.Meaning.{IsAccepted};
    ghost use Rattle.sfc_replay.specs.sfc_debug.Verdict.{after, history_by, verdict};
    ghost use Rattle.sfc_replay.specs.sfc_output.Output.{debugger_of};
    ghost use Rattle.sfc_session.specs.Scanning as scanning;
    ghost use Rattle.sfc_session.specs.Sessions.{last_instant, steered_after, waiting, waiting_verdict};
    ghost use Rattle.sfc_c.specs.Codes as codes;
    ghost use Rattle.sfc_c.specs.Resources.{IsPast, IsSaved, Stands, debugger_in, slots_in, steered_in};

    /// A resource with this debugger, which was told nothing.
    pub fn new(alloc: Global, debugger: Debugger) -> Plc
        ensures debugger { debugger_in result ≡ debugger }
        ensures stands { Agrees debugger [] → Stands result [] }
        ensures slots { slots_in result ≡ [] }
    {
        Plc {
            debugger,
            instant: 0,
            slots: Vec::new(alloc),
        }
    }

    /// The debugger.
    pub fn debugger(&self) -> &Debugger
        ensures { result.now ≡ debugger_in self.now }
    {
        &self.debugger
    }

    /// The raw instant of the latest accepted command, in microseconds; 0 before the first.
    pub fn instant(&self) -> i64
        ensures { (h : CommandHistory) → Stands self.now h → result ≡ last_instant h }
    {
        self.instant
    }

    /// The raw instant of a run instant, where the resource runs on from the latest accepted command; as far as 64 bits go.
    pub fn raw_of(&self, next: i64) -> i64
        ensures { (h : CommandHistory) → Stands self.now h → result ≡ scanning.raw_of (last_instant h)
            ((debugger_of (steered_in self.now)).state h).clock.instant next }
    {
        let stretch = next.saturating_sub(self.debugger.run_instant());
        self.instant.saturating_add(stretch)
    }

    /// One command at its raw instant: what it answers, or what it is refused for.
    pub fn obey(&mut self, timed: Timed) -> Result<Answer, Refusal>
        ensures steered { steered_in self.new ≡ steered_in self.old }
        ensures answer { (h : CommandHistory) → Stands self.old h →
            result ≡ verdict (steered_in self.old).plant (steered_in self.old).table h timed.0 timed.1 }
        ensures stands { (h : CommandHistory) → Stands self.old h →
            Stands self.new (after (steered_in self.old).plant (steered_in self.old).table h timed) }
        ensures slots { slots_in self.new ≡ slots_in self.old }
    {
        match self.debugger.obey(timed) {
            Ok(answer) => {
                self.instant = timed.raw;
                Ok(answer)
            }
            Err(refusal) => Err(refusal),
        }
    }

    /// What the commands so far leave for later ones. The one error is that memory was refused.
    pub fn keep(&self, alloc: Global) -> Result<Saved, AllocError>
        ensures fits { IfOk result (λ saved. IsOpeningFor (steered_in self.now).plant saved.opening) }
        ensures past { IfOk result (λ saved. (h : CommandHistory) → Stands self.now h → IsPast (steered_in self.now) h saved) }
    {
        let mut opening = DebugOpening::new(alloc, &self.debugger)?;
        self.debugger.save(&mut opening);
        Ok(Saved {
            opening,
            instant: self.instant,
        })
    }

    /// Goes on from there: what the resource was told since counts no more. It takes no memory.
    pub fn go_back(&mut self, saved: &Saved)
        requires { IsOpeningFor (steered_in self.old).plant saved.now.opening }
        ensures steered { steered_in self.new ≡ steered_in self.old }
        ensures stands { (h : CommandHistory) → IsPast (steered_in self.old) h saved.now → Stands self.new h }
        ensures slots { slots_in self.new ≡ slots_in self.old }
    {
        self.debugger.restore(&saved.opening);
        self.instant = saved.instant;
    }

    /// Saves what the commands so far leave under a number: in the place of what was saved under it, or as the next behind all others. It
    /// answers 0; -3 where the number is above that of the next, -4 where memory was refused, and then all is as it was.
    #[tactic(auto, using(crate::proofs::Slots::set_here, crate::proofs::Slots::set_other, crate::proofs::Slots::push_here, crate::proofs::Slots::push_other, crate::proofs::Slots::all_put, crate::proofs::Slots::all_push))]
    pub fn save(&mut self, alloc: Global, number: usize) -> i32
        ensures steered { steered_in self.new ≡ steered_in self.old }
        ensures stands { (h : CommandHistory) → Stands self.old h → Stands self.new h }
        ensures saved { (h : CommandHistory) → Stands self.old h → result ≡ pos 0 →
            IsSaved (steered_in self.old) h (slice_get (slots_in self.new) number) }
        ensures others { (k : ℕ) → (k ≡ number → ⊥) → slice_get (slots_in self.new) k ≡ slice_get (slots_in self.old) k }
        ensures refused { (result ≡ pos 0 → ⊥) → slots_in self.new ≡ slots_in self.old }
        ensures unknown { length (slots_in self.old) < number → result ≡ codes.unknown }
        ensures memory { number ≤ length (slots_in self.old) → (result ≡ pos 0) ⊎ (result ≡ codes.no_memory) }
    {
        if number > self.slots.len() {
            return UNKNOWN;
        }
        let Ok(saved) = self.keep(alloc) else {
            return NO_MEMORY;
        };
        if number < self.slots.len() {
            self.slots[number] = saved;
            return 0;
        }
        let Ok(()) = self.slots.push(saved) else {
            return NO_MEMORY;
        };
        0
    }

    /// Goes back to what was saved under a number: what the resource was told since counts no more. It takes no memory. -3 where nothing
    /// was saved under it.
    #[tactic(auto, using(crate::proofs::Slots::one_of))]
    pub fn restore(&mut self, number: usize) -> i32
        ensures steered { steered_in self.new ≡ steered_in self.old }
        ensures restored { (h : CommandHistory) → IsSaved (steered_in self.old) h (slice_get (slots_in self.old) number) →
            (result ≡ pos 0) × Stands self.new h }
        ensures unknown { (h : CommandHistory) → Stands self.old h → slice_get (slots_in self.old) number ≡ None →
            (result ≡ codes.unknown) × Stands self.new h }
        ensures slots { slots_in self.new ≡ slots_in self.old }
    {
        if number >= self.slots.len() {
            return UNKNOWN;
        }
        self.debugger.restore(&self.slots[number].opening);
        self.instant = self.slots[number].instant;
        0
    }

    /// Sets a breakpoint that waits for a condition, which joins the table behind all others, at the raw instant: what it answers, or what
    /// it is refused for, as `Debugger::break_when`. The one error is that memory was refused.
    pub fn break_when(
        &mut self,
        point: Point,
        condition: BreakCondition,
        raw: i64,
    ) -> Result<Result<Answer, Refusal>, AllocError>
        ensures steered { IfOk result (λ answer. steered_in self.new ≡ steered_after answer (steered_in self.old) condition) }
        ensures answer { (h : CommandHistory) → IsAccepted (steered_in self.old).plant (steered_in self.old).table h → Stands self.old h →
            IfOk result (λ answer. answer ≡ waiting_verdict (steered_in self.old) h (point, raw) condition) }
        ensures stands { (h : CommandHistory) → IsAccepted (steered_in self.old).plant (steered_in self.old).table h → Stands self.old h →
            IfOk result (λ answer. Stands self.new (history_by answer (waiting (steered_in self.old) (point, raw) condition) h)) }
        ensures err_steered { OnErr result (steered_in self.new ≡ steered_in self.old) }
        ensures err { (h : CommandHistory) → Stands self.old h → OnErr result (Stands self.new h) }
        ensures slots { slots_in self.new ≡ slots_in self.old }
    {
        match obey_break(&mut self.debugger, (point, raw), condition) {
            Ok(Ok(answer)) => {
                self.instant = raw;
                Ok(Ok(answer))
            }
            Ok(Err(refusal)) => Ok(Err(refusal)),
            Err(error) => Err(error),
        }
    }
}
