//! A resource that is steered by commands.

ghost use Rattle.std.specs.Prelude.{◌≡◌, ◌≤ℤ◌, ◌<◌, ◌≤◌, ◌+◌, ◌-◌, ◌∷◌, ◌^◌, [], ℤ, None, Some, Err, List, length, take, pos, option_map, slice_get, IfOk, IsOk, OnOk, OnErr};
ghost use Rattle.sfc_base.specs.Ticks.{Within};
ghost use Rattle.sfc_expr.specs.Trees.{expression_of};
ghost use Rattle.sfc_events.specs.Commands.{event_of};
ghost use Rattle.sfc_events.specs.History.{History};
ghost use Rattle.sfc_events.specs.declared.command.TraceRow.{TraceRow};
ghost use Rattle.sfc_core.specs.Agreement as core;
ghost use Rattle.sfc_core.specs.PlantState as plant_state;
ghost use Rattle.sfc_core.specs.Verdict as events;
ghost use Rattle.sfc_core.specs.Work.{event_work};
ghost use Rattle.sfc_debug.specs.declared.break_condition.BreakCondition.{BreakCondition};
ghost use Rattle.sfc_debug.specs.Hits.{shown_condition};
ghost use Rattle.sfc_debug.specs.States.{clock_after, erasure, hits, state_of, with_event};
ghost use Rattle.sfc_debug.specs.Points.{points_after};
ghost use Rattle.sfc_debug.specs.Private.Newest.{KeepsNewest};
ghost use Rattle.sfc_debug.specs.Private.Ranges.{HasRoom, granted};
ghost use Rattle.sfc_debug.specs.Private.Telling.{hit_by};
ghost use Rattle.sfc_debug.specs.RunClock.{run_instant};
ghost use Rattle.sfc_debug.specs.Tracing.{row_at, row_of, with_row};
ghost use Rattle.sfc_debug.specs.Verdict as verdict;
ghost use Rattle.sfc_debug.specs.Work.{command_work, hits_work, resource_work};

use crate::break_condition::{BreakCondition, MOST};
use crate::breakpoints::Breakpoints;
use crate::hits::any_hit;
use crate::mode::Mode;
use crate::opening::DebugOpening;
use crate::refusing::{refuse_own, refuse_unnumbered};
use crate::run_clock::RunClock;
use crate::timed::Timed;
use crate::trace::Trace;
use crate::trace_mask::TraceMask;
use sfc_base::ids::ProgId;
use sfc_base::ticks::Ticks;
use sfc_core::resource::Resource;
use sfc_events::command::{Answer, Command, CondId, Point, TraceRow};
use sfc_events::event::{Event, Outcome};
use sfc_events::refusal::Refusal;
use sfc_expr::expr::Expr;
use std::alloc::{AllocError, Global};

/// A resource that is steered by commands: it is halted at breakpoints, scanned once, and let go again, and while it is
/// halted its time stands still.
pub struct Debugger {
    resource: Resource,
    conditions: Vec<BreakCondition>,
    points: Breakpoints,
    clock: RunClock,
    accepted: u64,
    trace: Trace,
    ghost instant_low: { pos 0 ≤ℤ clock.instant },
    ghost instant_high: { clock.instant ≤ℤ pos (2 ^ 62) },
    ghost raw_low: { pos 0 ≤ℤ clock.raw },
    ghost raw_high: { clock.raw ≤ℤ pos (2 ^ 62) },
}

// By hand, so that a caller that drops one proves one call.
impl Drop for Debugger {
    fn drop(self) {
        let Debugger {
            resource: _,
            conditions: _,
            points: _,
            clock: _,
            accepted: _,
            trace: _,
        } = self;
    }
}

// What the answer of the resource is for a command that hit a breakpoint, or not.
fn with_hit(hit: bool, outcome: Outcome) -> Answer
    ensures { result ≡ verdict.with_hit hit outcome }
{
    match outcome {
        Outcome::Done => Answer::Done,
        Outcome::Scanned {
            ran,
            faulted,
            skipped,
            overruns,
        } => Answer::Scanned {
            ran,
            faulted,
            skipped,
            overruns,
            hit,
        },
    }
}

// Whether the answer tells of a hit.
fn tells_hit(answer: Answer) -> bool
    ensures { result ≡ verdict.has_hit answer }
{
    match answer {
        Answer::Scanned { hit, .. } => hit,
        Answer::Done | Answer::Value(_) => false,
    }
}

#[tactic(auto, unfolding(crate::specs::Agreement::Agrees, crate::specs::Agreement::Traces, crate::specs::Agreement::plant_of, crate::specs::Agreement::table_of, crate::specs::Agreement::mask_of, crate::specs::Agreement::capacity_of))]
impl Debugger {
    ghost use Rattle.sfc_debug.specs.Agreement.{Agrees, Traces, plant_of, table_of, mask_of, capacity_of};
    ghost use Rattle.sfc_debug.specs.Histories.{CommandHistory};
    ghost use Rattle.sfc_debug.specs.Longer.{NamesWithin, with_condition, break_when};
    ghost use Rattle.sfc_debug.specs.Openings.{IsOpeningFor, past_of};
    ghost use Rattle.sfc_debug.specs.Past.{debug_past};
    ghost use Rattle.sfc_debug.specs.Steered.{steered_by};

    /// A debugger without conditions; else as `with_conditions` says.
    pub fn new(
        alloc: Global,
        resource: Resource,
        capacity: usize,
        mask: TraceMask,
    ) -> Result<Debugger, AllocError>
        requires untold { core.Agrees resource [] }
        ensures agrees { IfOk result (λ debugger. Agrees debugger []) }
        ensures plant { IfOk result (λ debugger. plant_of debugger ≡ core.plant_of resource) }
        ensures table { IfOk result (λ debugger. table_of debugger ≡ []) }
        ensures mask { IfOk result (λ debugger. mask_of debugger ≡ mask) }
        ensures capacity { IfOk result (λ debugger. capacity_of debugger ≡ capacity) }
        ensures traces { IfOk result (λ debugger. Traces debugger []) }
    {
        let conditions = Vec::with_capacity(alloc, 0)?;
        Debugger::with_conditions(alloc, resource, capacity, mask, conditions)
    }

    /// A debugger in mode Running at run instant 0, with no breakpoint. Breakpoints may wait for these conditions, each typed as
    /// one of a transition of its program instance is. The trace keeps the newest rows of the commands that the mask wants, as many
    /// as its capacity, which is from 1 to 65,536. The resource was told nothing. All memory that commands need is taken here; the
    /// one error is that memory was refused, and then the resource and the conditions are given up.
    #[tactic(auto, unfolding(crate::specs::Agreement::Agrees, crate::specs::Agreement::Traces, crate::specs::Agreement::plant_of, crate::specs::Agreement::table_of, crate::specs::Agreement::mask_of, crate::specs::Agreement::capacity_of, crate::specs::States::state_of))]
    pub fn with_conditions(
        alloc: Global,
        resource: Resource,
        capacity: usize,
        mask: TraceMask,
        conditions: Vec<BreakCondition>,
    ) -> Result<Debugger, AllocError>
        requires untold { core.Agrees resource [] }
        ensures agrees { IfOk result (λ debugger. Agrees debugger []) }
        ensures plant { IfOk result (λ debugger. plant_of debugger ≡ core.plant_of resource) }
        ensures table { IfOk result (λ debugger. table_of debugger ≡ conditions.items) }
        ensures mask { IfOk result (λ debugger. mask_of debugger ≡ mask) }
        ensures capacity { IfOk result (λ debugger. capacity_of debugger ≡ capacity) }
        ensures traces { IfOk result (λ debugger. Traces debugger []) }
    {
        let points = Breakpoints::new(alloc)?;
        let trace = Trace::new(alloc, capacity, mask)?;
        let clock = RunClock {
            mode: Mode::Running,
            instant: 0,
            raw: 0,
        };
        Ok(Debugger {
            resource,
            conditions,
            points,
            clock,
            accepted: 0,
            trace,
        })
    }

    // The run instant of the command at the raw instant, or why it is not looked at.
    fn at(&self, command: Command, raw: i64) -> Result<i64, Refusal>
        ensures value { result ≡ granted (events.or_then (verdict.end_refusal self.now.clock.mode self.now.accepted)
            (verdict.clock_refusal self.now.clock command raw)) (run_instant self.now.clock command raw) }
        ensures low { IfOk result (λ t. pos 0 ≤ℤ t) }
        ensures high { IfOk result (λ t. t ≤ℤ pos (2 ^ 62)) }
        ensures raw_low { IsOk result → pos 0 ≤ℤ raw }
        ensures raw_high { IsOk result → raw ≤ℤ pos (2 ^ 62) }
        ensures count { IsOk result → self.now.accepted < 2 ^ 64 - 1 }
    {
        match self.clock.mode {
            Mode::Ended => Err(Refusal::Ended),
            Mode::Running | Mode::Stopped => {
                if self.accepted == u64::MAX {
                    return Err(Refusal::HistoryFull);
                }
                self.clock.at(command, raw)
            }
        }
    }

    // Whether the command hit a breakpoint, where the resource answered so.
    fn has_hit(&self, command: Command, outcome: Outcome, ticks: &mut Ticks) -> bool
        ensures value { (h : History) → core.Agrees self.now.resource h → result ≡
            hit_by (core.plant_of self.now.resource) self.now.conditions.items self.now.points command outcome
            (plant_state.state_of (core.plant_of self.now.resource) h) }
        ensures ticks { Within (hits_work self.now.conditions.items self.now.points command) ticks.old ticks.new }
    {
        if self.points.as_slice().is_empty() {
            return false;
        }
        match (command, outcome) {
            (Command::Scan(_), Outcome::Scanned { ran, .. }) => any_hit(
                &self.resource,
                self.conditions.as_slice(),
                ran,
                self.points.as_slice(),
                ticks,
            ),
            _ => false,
        }
    }

    // What the resource answers to the event that the command is.
    fn apply(
        &mut self,
        command: Command,
        event: Event,
        t: i64,
        ticks: &mut Ticks,
    ) -> Result<Answer, Refusal>
        requires event { event_of command ≡ Some event }
        ensures plant { core.plant_of self.new.resource ≡ core.plant_of self.old.resource }
        ensures conditions { self.new.conditions ≡ self.old.conditions }
        ensures points { self.new.points ≡ self.old.points }
        ensures clock { self.new.clock ≡ self.old.clock }
        ensures accepted { self.new.accepted ≡ self.old.accepted }
        ensures trace { self.new.trace ≡ self.old.trace }
        ensures answer { (h : History) → core.Agrees self.old.resource h → result ≡
            verdict.answer_by (hits (core.plant_of self.old.resource) self.old.conditions.items command t self.old.points h)
            (events.verdict (core.plant_of self.old.resource) h event t) }
        ensures ok { OnOk result ((h : History) → core.Agrees self.old.resource h → core.Agrees self.new.resource ((event, t) ∷ h)) }
        ensures err { OnErr result (self.new ≡ self.old) }
        ensures ticks { Within (event_work (core.plant_of self.old.resource) event
            + hits_work self.old.conditions.items self.old.points command) ticks.old ticks.new }
    {
        let outcome = self.resource.apply(event, t, ticks)?;
        let hit = self.has_hit(command, outcome, ticks);
        Ok(with_hit(hit, outcome))
    }

    // What a command answers that is no event, where it may be looked at.
    fn answer_own(&self, command: Command) -> Result<Answer, Refusal>
        ensures answer { (h : History) → core.Agrees self.now.resource h → result ≡ verdict.own_verdict
            (verdict.own_refusal (core.plant_of self.now.resource) self.now.conditions.items self.now.points command)
            (verdict.own_answer (core.plant_of self.now.resource) h command) }
        ensures granted { OnOk result (verdict.own_refusal (core.plant_of self.now.resource) self.now.conditions.items self.now.points command ≡ None) }
    {
        let table = self.conditions.as_slice();
        match refuse_own(&self.resource, table, &self.points, command) {
            Some(refusal) => Err(refusal),
            None => Ok(self.own_answer(command)),
        }
    }

    // The same, where nothing is refused.
    fn own_answer(&self, command: Command) -> Answer
        requires granted { verdict.own_refusal (core.plant_of self.now.resource) self.now.conditions.items self.now.points command ≡ None }
        ensures { (h : History) → core.Agrees self.now.resource h →
            result ≡ verdict.own_answer (core.plant_of self.now.resource) h command }
    {
        match command {
            Command::Read(id) => Answer::Value(self.resource.value(id)),
            _ => Answer::Done,
        }
    }

    // What the command answers at its run instant, where it may be looked at.
    fn answer(&mut self, command: Command, t: i64, ticks: &mut Ticks) -> Result<Answer, Refusal>
        ensures plant { core.plant_of self.new.resource ≡ core.plant_of self.old.resource }
        ensures conditions { self.new.conditions ≡ self.old.conditions }
        ensures points { self.new.points ≡ self.old.points }
        ensures clock { self.new.clock ≡ self.old.clock }
        ensures accepted { self.new.accepted ≡ self.old.accepted }
        ensures trace { self.new.trace ≡ self.old.trace }
        ensures answer { (h : History) → core.Agrees self.old.resource h → result ≡
            verdict.verdict_at (core.plant_of self.old.resource) self.old.conditions.items
            (record { clock = self.old.clock; points = self.old.points; events = h }) command t (event_of command) }
        ensures ok { OnOk result ((h : History) → core.Agrees self.old.resource h →
            core.Agrees self.new.resource (with_event (event_of command) t h)) }
        ensures room { OnOk result (HasRoom command self.old.points) }
        ensures err { OnErr result (self.new ≡ self.old) }
        ensures ticks { Within (command_work (core.plant_of self.old.resource) self.old.conditions.items self.old.points command)
            ticks.old ticks.new }
    {
        match command.event() {
            Some(event) => self.apply(command, event, t, ticks),
            None => self.answer_own(command),
        }
    }

    // Keeps what an accepted command leaves, the resource apart.
    fn keep(&mut self, command: Command, raw: i64, t: i64, answer: Answer)
        requires low { pos 0 ≤ℤ t }
        requires high { t ≤ℤ pos (2 ^ 62) }
        requires raw_low { pos 0 ≤ℤ raw }
        requires raw_high { raw ≤ℤ pos (2 ^ 62) }
        requires room { HasRoom command self.old.points }
        requires count { self.old.accepted < 2 ^ 64 - 1 }
        ensures resource { self.new.resource ≡ self.old.resource }
        ensures conditions { self.new.conditions ≡ self.old.conditions }
        ensures points { self.new.points ≡ points_after command self.old.points }
        ensures clock { self.new.clock ≡ clock_after command raw t (verdict.has_hit answer) self.old.clock }
        ensures accepted { self.new.accepted ≡ self.old.accepted + 1 }
        ensures mask { self.new.trace.mask ≡ self.old.trace.mask }
        ensures capacity { self.new.trace.rows.capacity ≡ self.old.trace.rows.capacity }
        ensures trace { (rows : List TraceRow) → KeepsNewest self.old.trace rows →
            KeepsNewest self.new.trace (with_row self.old.trace.mask
            (record { number = self.old.accepted + 1; raw = raw; t = t; command = command; answer = answer }) rows) }
    {
        self.points.follow(command);
        self.clock = self.clock.after(command, raw, t, tells_hit(answer));
        self.accepted += 1;
        if self.trace.wants(command) {
            self.trace.note(TraceRow {
                number: self.accepted,
                raw,
                t,
                command,
                answer,
            });
        }
    }

    /// One command at the raw instant, in microseconds: what it is refused for, else what it answers. After a refusal the
    /// debugger is as it was. It takes no memory. Its work is bounded by that of the resource's event, and for a scan by one for each
    /// breakpoint, of which there are at most 64, and the nodes of its condition.
    ///
    /// The refusals, of which the first that applies is given: `Ended` after End; `HistoryFull` where 2^64 - 1 commands were
    /// accepted; `InstantRange` where the raw instant is below 0 or above 2^62; `ClockBack` where it is before that of the latest
    /// accepted command; `Stopped`, `NotRunning`, `NotStopped` by the mode; `InstantRange` where the delta of a single scan is
    /// negative, or the run instant would be above 2^62; what `Resource::apply` refuses at the run instant by what is named;
    /// `UnknownVar` of Read; `UnknownProgram` and `NoSuchPoint` of a breakpoint's place, the latter also where Unbreak finds none set;
    /// `NoSuchCondition` where the table has none for the program instance; `TooManyPoints` where 64 others are set; and what
    /// `Resource::apply` refuses for its turn.
    pub fn command(
        &mut self,
        command: Command,
        raw: i64,
        ticks: &mut Ticks,
    ) -> Result<Answer, Refusal>
        ensures plant { plant_of self.new ≡ plant_of self.old }
        ensures table { table_of self.new ≡ table_of self.old }
        ensures mask { mask_of self.new ≡ mask_of self.old }
        ensures capacity { capacity_of self.new ≡ capacity_of self.old }
        ensures answer { (h : CommandHistory) → Agrees self.old h →
            result ≡ verdict.verdict (plant_of self.old) (table_of self.old) h command raw }
        ensures ok { OnOk result ((h : CommandHistory) → Agrees self.old h → Agrees self.new ((command, raw) ∷ h)) }
        ensures traces { IfOk result (λ answer. (h : CommandHistory) (rows : List TraceRow) → Agrees self.old h → Traces self.old rows →
            Traces self.new (with_row (mask_of self.old) (row_of (plant_of self.old) (table_of self.old) h command raw answer) rows)) }
        ensures err { OnErr result (self.new ≡ self.old) }
        ensures ticks { (h : CommandHistory) → Agrees self.old h →
            Within (command_work (plant_of self.old) (table_of self.old) (state_of (plant_of self.old) (table_of self.old) h).points command)
            ticks.old ticks.new }
    {
        let t = self.at(command, raw)?;
        let answer = self.answer(command, t, ticks)?;
        self.keep(command, raw, t, answer);
        Ok(answer)
    }

    /// One command at its raw instant: what `command` says of it, with counted work of its own.
    pub fn obey(&mut self, timed: Timed) -> Result<Answer, Refusal>
        ensures steered { steered_by self.new ≡ steered_by self.old }
        ensures mask { mask_of self.new ≡ mask_of self.old }
        ensures capacity { capacity_of self.new ≡ capacity_of self.old }
        ensures answer { (h : CommandHistory) → Agrees self.old h →
            result ≡ verdict.verdict (plant_of self.old) (table_of self.old) h timed.0 timed.1 }
        ensures agrees { (h : CommandHistory) → Agrees self.old h →
            Agrees self.new (verdict.after (plant_of self.old) (table_of self.old) h timed) }
        ensures traces { IfOk result (λ answer. (h : CommandHistory) (rows : List TraceRow) → Agrees self.old h → Traces self.old rows →
            Traces self.new (with_row (mask_of self.old) (row_of (plant_of self.old) (table_of self.old) h timed.0 timed.1 answer) rows)) }
        ensures err { OnErr result (self.new ≡ self.old) }
    {
        let Timed { command, raw } = timed;
        let mut ticks = Ticks::new();
        self.command(command, raw, &mut ticks)
    }

    /// One more condition in the table, behind all others, which no breakpoint waits for yet. The one error is that memory was refused, and
    /// then the condition is given up.
    pub fn add_condition(&mut self, condition: BreakCondition) -> Result<(), AllocError>
        ensures plant { plant_of self.new ≡ plant_of self.old }
        ensures mask { mask_of self.new ≡ mask_of self.old }
        ensures capacity { capacity_of self.new ≡ capacity_of self.old }
        ensures table { OnOk result (table_of self.new ≡ with_condition (table_of self.old) condition) }
        ensures err_table { OnErr result (table_of self.new ≡ table_of self.old) }
        ensures agrees { (h : CommandHistory) → NamesWithin (length (table_of self.old)) h → Agrees self.old h →
            OnOk result (Agrees self.new h) }
        ensures err_agrees { (h : CommandHistory) → Agrees self.old h → OnErr result (Agrees self.new h) }
        ensures traces { (rows : List TraceRow) → Traces self.old rows → Traces self.new rows }
    {
        self.conditions.push(condition)?;
        Ok(())
    }

    // The first conditions of the table alone, so many of them.
    fn keep_conditions(&mut self, count: usize)
        ensures plant { plant_of self.new ≡ plant_of self.old }
        ensures mask { mask_of self.new ≡ mask_of self.old }
        ensures capacity { capacity_of self.new ≡ capacity_of self.old }
        ensures table { table_of self.new ≡ take count (table_of self.old) }
        ensures agrees { (h : CommandHistory) → NamesWithin (length (table_of self.new)) h → Agrees self.old h → Agrees self.new h }
        ensures traces { (rows : List TraceRow) → Traces self.old rows → Traces self.new rows }
    {
        self.conditions.truncate(count);
    }

    // What a breakpoint with a condition that isn't in the table is refused for.
    fn refuse_unnumbered(&self, program: ProgId, point: Point, raw: i64) -> Refusal
        ensures { (h : CommandHistory) → Agrees self.now h → result ≡ verdict.refused_unnumbered (plant_of self.now)
            (state_of (plant_of self.now) (table_of self.now) h) (length h) program point raw }
    {
        let command = Command::BreakIf(program, point, CondId(0));
        match self.at(command, raw) {
            Err(refusal) => refusal,
            Ok(_) => refuse_unnumbered(&self.resource, program, point),
        }
    }

    /// Sets a breakpoint that waits for a condition: the command `BreakIf` of this condition, which joins the table behind all others.
    /// What is refused, as by `command`, leaves the debugger as it was, and the condition is given up. A table of 65,535 conditions takes
    /// no more: then the condition is one that isn't there, which is refused in its turn. The one error is that memory was refused.
    ///
    /// Of the accepted commands none names a condition that the table doesn't have, as it is where each came by `command` and was
    /// accepted. Then nothing that was answered would have been answered otherwise with the longer table (`laws::longer_table`).
    pub fn break_when(
        &mut self,
        point: Point,
        condition: BreakCondition,
        raw: i64,
        ticks: &mut Ticks,
    ) -> Result<Result<Answer, Refusal>, AllocError>
        ensures plant { plant_of self.new ≡ plant_of self.old }
        ensures mask { mask_of self.new ≡ mask_of self.old }
        ensures capacity { capacity_of self.new ≡ capacity_of self.old }
        ensures full { (h : CommandHistory) → 65535 ≤ length (table_of self.old) → Agrees self.old h → IfOk result (λ answer. answer ≡ Err
            (verdict.refused_unnumbered (plant_of self.old) (state_of (plant_of self.old) (table_of self.old) h) (length h) condition.program point raw)) }
        ensures answer { (h : CommandHistory) → length (table_of self.old) < 65535 → NamesWithin (length (table_of self.old)) h →
            Agrees self.old h → IfOk result (λ answer. answer ≡ verdict.verdict (plant_of self.old)
            (with_condition (table_of self.old) condition) h (break_when (table_of self.old) point condition) raw) }
        ensures table { IfOk result (λ answer. OnOk answer (table_of self.new ≡ with_condition (table_of self.old) condition)) }
        ensures refused_table { IfOk result (λ answer. OnErr answer (table_of self.new ≡ table_of self.old)) }
        ensures ok { (h : CommandHistory) → NamesWithin (length (table_of self.old)) h → Agrees self.old h →
            IfOk result (λ answer. OnOk answer (Agrees self.new ((break_when (table_of self.old) point condition, raw) ∷ h))) }
        ensures refused { (h : CommandHistory) → NamesWithin (length (table_of self.old)) h → Agrees self.old h →
            IfOk result (λ answer. OnErr answer (Agrees self.new h)) }
        ensures traces { (h : CommandHistory) (rows : List TraceRow) → NamesWithin (length (table_of self.old)) h → Agrees self.old h →
            Traces self.old rows → IfOk result (λ answer. IfOk answer (λ given. Traces self.new (with_row (mask_of self.old)
            (row_of (plant_of self.old) (with_condition (table_of self.old) condition) h (break_when (table_of self.old) point condition) raw
            given) rows))) }
        ensures refused_traces { (rows : List TraceRow) → Traces self.old rows →
            IfOk result (λ answer. OnErr answer (Traces self.new rows)) }
        ensures err_table { OnErr result (table_of self.new ≡ table_of self.old) }
        ensures err { (h : CommandHistory) → Agrees self.old h → OnErr result (Agrees self.new h) }
        ensures err_traces { (rows : List TraceRow) → Traces self.old rows → OnErr result (Traces self.new rows) }
    {
        let place = self.conditions.len();
        if place >= MOST {
            return Ok(Err(self.refuse_unnumbered(condition.program, point, raw)));
        }
        let command = Command::BreakIf(condition.program, point, CondId(place as u16));
        self.add_condition(condition)?;
        let answer = self.command(command, raw, ticks);
        if answer.is_err() {
            self.keep_conditions(place);
        }
        Ok(answer)
    }

    /// Whether the resource runs.
    pub fn mode(&self) -> Mode
        ensures { (h : CommandHistory) → Agrees self.now h → result ≡ (state_of (plant_of self.now) (table_of self.now) h).clock.mode }
    {
        self.clock.mode
    }

    /// The run instant of the latest accepted command, in microseconds; 0 before the first.
    pub fn run_instant(&self) -> i64
        ensures { (h : CommandHistory) → Agrees self.now h → result ≡ (state_of (plant_of self.now) (table_of self.now) h).clock.instant }
    {
        self.clock.instant
    }

    /// The resource, which was told the events of the accepted commands at their run instants.
    pub fn resource(&self) -> &Resource
        ensures plant { core.plant_of result.now ≡ plant_of self.now }
        ensures agrees { (h : CommandHistory) → Agrees self.now h →
            core.Agrees result.now (erasure (plant_of self.now) (table_of self.now) h) }
    {
        &self.resource
    }

    /// How many commands were accepted.
    pub fn accepted(&self) -> u64
        ensures { (h : CommandHistory) → Agrees self.now h → result ≡ length h }
    {
        self.accepted
    }

    /// The n-th newest of the trace's rows, from 0, if it keeps so many.
    pub fn trace(&self, n: usize) -> Option<TraceRow>
        ensures { (rows : List TraceRow) → Traces self.now rows → result ≡ row_at (capacity_of self.now) rows n }
    {
        self.trace.row(n)
    }

    /// Which rows the trace keeps.
    pub fn mask(&self) -> TraceMask
        ensures { result ≡ mask_of self.now }
    {
        self.trace.mask()
    }

    /// What Epoch would answer at the raw instant, in microseconds. Nothing changes.
    pub fn epoch_answer(&self, raw: i64) -> Result<Answer, Refusal>
        ensures { (h : CommandHistory) → Agrees self.now h →
            result ≡ verdict.verdict (plant_of self.now) (table_of self.now) h Command.Epoch raw }
    {
        match self.at(Command::Epoch, raw) {
            Ok(_) => Ok(Answer::Done),
            Err(refusal) => Err(refusal),
        }
    }

    /// A condition that breakpoints may wait for: its program instance, and what it is. `None` where the table has none of this number.
    pub fn condition(&self, id: CondId) -> Option<(ProgId, &Expr)>
        ensures { option_map (λ shown. (shown.0, expression_of shown.1.now)) result
            ≡ shown_condition (slice_get (table_of self.now) id.0) }
    {
        match self.conditions.get(id.0 as usize) {
            Some(entry) => Some((entry.program, entry.condition.expr())),
            None => None,
        }
    }

    /// The table of conditions.
    pub fn conditions(&self) -> &[BreakCondition]
        ensures { result.now ≡ table_of self.now }
    {
        &self.conditions
    }

    /// Puts into the opening what the commands so far leave for later ones. It takes no memory.
    #[tactic(auto, unfolding(crate::specs::Agreement::Agrees, crate::specs::Agreement::plant_of, crate::specs::Agreement::table_of, crate::specs::Openings::IsOpeningFor, crate::specs::Openings::past_of))]
    pub fn save(&self, opening: &mut DebugOpening)
        requires { IsOpeningFor (plant_of self.now) opening.old }
        ensures sizes { IsOpeningFor (plant_of self.now) opening.new }
        ensures saved { (h : CommandHistory) → Agrees self.now h →
            past_of (plant_of self.now) opening.new ≡ debug_past (plant_of self.now) (table_of self.now) h }
    {
        self.resource.save(&mut opening.resource);
        opening.points.copy_from(&self.points);
        opening.clock = self.clock;
        opening.accepted = self.accepted;
    }

    /// Goes on from the opening: what the debugger was told before counts no more, and each later command gets the answer that
    /// it gets after the commands that the opening stands for. The rows of the trace stay. It takes no memory.
    #[tactic(auto, unfolding(crate::specs::Agreement::Agrees, crate::specs::Agreement::Traces, crate::specs::Agreement::plant_of, crate::specs::Agreement::table_of, crate::specs::Agreement::mask_of, crate::specs::Agreement::capacity_of, crate::specs::Openings::IsOpeningFor, crate::specs::Openings::past_of))]
    pub fn restore(&mut self, opening: &DebugOpening)
        requires { IsOpeningFor (plant_of self.old) opening.now }
        ensures plant { plant_of self.new ≡ plant_of self.old }
        ensures table { table_of self.new ≡ table_of self.old }
        ensures mask { mask_of self.new ≡ mask_of self.old }
        ensures capacity { capacity_of self.new ≡ capacity_of self.old }
        ensures traces { (rows : List TraceRow) → Traces self.old rows → Traces self.new rows }
        ensures restored { (h : CommandHistory) →
            past_of (plant_of self.old) opening.now ≡ debug_past (plant_of self.old) (table_of self.old) h → Agrees self.new h }
    {
        self.resource.restore(&opening.resource);
        self.points.copy_from(&opening.points);
        self.clock = opening.clock;
        self.accepted = opening.accepted;
    }
}
