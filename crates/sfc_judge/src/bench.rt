//! A debugger on which cases are run.

ghost use Rattle.std.specs.Prelude.{◌≡◌, ◌==◌, ◌<◌, ◌∷◌, ◌++◌, [], ℕ, length};
ghost use Rattle.std.specs.Prelude.{false, slice_get, slice_set, unwrap_or, None, Some, IfOk, IfSome, OnOk};
ghost use Rattle.std.specs.List.{list_any};
ghost use Rattle.sfc_replay.specs.sfc_core.Agreement as core;
ghost use Rattle.sfc_replay.specs.sfc_debug.Agreement.{Agrees};
ghost use Rattle.sfc_replay.specs.sfc_debug.Histories.{CommandHistory};
ghost use Rattle.sfc_replay.specs.sfc_debug.Steered.{steered_by};
ghost use Rattle.sfc_replay.specs.sfc_instance.Views.{Shows};
ghost use Rattle.sfc_replay.specs.sfc_output.Output.{debugger_of};
ghost use Rattle.sfc_session.specs.Scanning as scanning;
ghost use Rattle.sfc_session.specs.Sessions.{last_instant};
ghost use Rattle.sfc_judge.specs.Running.Benches as benches;
ghost use Rattle.sfc_judge.specs.Running.Benches.{IsReady, Stands, steered_in};
ghost use Rattle.sfc_judge.specs.Holding as holding;
ghost use Rattle.sfc_judge.specs.Moments as moments;
ghost use Rattle.sfc_judge.specs.Moments.{Moment};
ghost use Rattle.sfc_judge.specs.Scans as scans;
ghost use Rattle.sfc_cases.specs.Stimuli as stimuli;
ghost use Rattle.sfc_judge.specs.Dues as dues;

use crate::due::{Due, first_due};
use crate::given::{Given, task_of};
use crate::sfc_core::resource::Resource;
use crate::sfc_debug::break_condition::BreakCondition;
use crate::sfc_debug::debugger::Debugger;
use crate::sfc_debug::opening::DebugOpening;
use crate::sfc_debug::timed::Timed;
use crate::sfc_instance::laws::window;
use crate::sfc_instance::program_view::ProgramView;
use crate::sfc_instance::scan_fault::ScanFault;
use crate::trail::Trail;
use crate::turn::{Turn, earlier, is_out_of_turn, release_in};
use sfc_base::ids::{ProgId, TaskId};
use sfc_base::references::StepId;
use sfc_base::ticks::Ticks;
use sfc_base::value::Value;
use sfc_cases::instant::Instant;
use sfc_cases::joined::{Condition, Joint};
use sfc_cases::stimulus::Stimulus;
use sfc_events::command::Command;
use sfc_expr::eval::eval;
use sfc_expr::fault::Fault;
use std::alloc::{AllocError, Global};

/// A debugger on which cases are run one after the other, and the clock of the one that is run, in microseconds. Its instants are the raw
/// ones of the debugger.
pub struct Bench {
    debugger: Debugger,
    // That of no command.
    opening: DebugOpening,
    clock: i64,
    // The raw instant of the last accepted command, 0 before the first.
    last: i64,
    // Of each task the overruns that its latest scan told, 0 before the first.
    told: Vec<u64>,
    // Of the case, in the order of its lines.
    stimuli: Vec<Stimulus>,
    trail: Trail,
}

// By hand, so that a caller that drops one proves one call.
impl Drop for Bench {
    fn drop(self) {
        let Bench {
            debugger: _,
            opening: _,
            clock: _,
            last: _,
            told: _,
            stimuli: _,
            trail: _,
        } = self;
    }
}

// How many overruns a task has in a table; none where it isn't there.
fn told_in(told: &[u64], task: TaskId) -> u64
    ensures { result ≡ unwrap_or (slice_get told.now task.0) 0 }
{
    match told.get(usize::from(task.0)) {
        Some(overruns) => *overruns,
        None => 0,
    }
}

// The later of two instants.
fn later(first: i64, second: i64) -> i64
    ensures { result ≡ dues.later first second }
{
    if first <= second { second } else { first }
}

// Puts into a table how many overruns a task has, where it is there.
fn keep_told(told: &mut Vec<u64>, task: TaskId, overruns: u64)
    ensures len { length told.new.items ≡ length told.old.items }
    ensures kept { task.0 < length told.old.items → slice_get told.new.items task.0 ≡ Some overruns }
    ensures others { (place : ℕ) → (task.0 == place) ≡ false → slice_get told.new.items place ≡ slice_get told.old.items place }
{
    let place = usize::from(task.0);
    if place < told.len() {
        told[place] = overruns;
    }
}

// Whether a step is one of these.
fn is_among(steps: &[StepId], step: StepId) -> bool
    ensures { result ≡ list_any (λ s. s.0 == step.0) steps.now }
{
    let mut rest = steps;
    'steps: while let Some((first, others)) = rest.split_first() {
        if first.0 == step.0 {
            return true;
        }
        rest = others;
    }
    false
}

// Whether the two are the same.
fn agree(first: bool, second: bool) -> bool
    ensures { result ≡ moments.agree first second }
{
    if first { second } else { !second }
}

// The truth value that a value is; None of a fault.
fn truth_of(value: Result<Value, Fault>) -> Option<bool>
    ensures { result ≡ moments.truth_of value }
{
    match value {
        Ok(Value::Bool(truth)) => Some(truth),
        Ok(_) | Err(_) => None,
    }
}

// Whether both are TRUE; None where one is neither TRUE nor FALSE.
fn both(first: Option<bool>, second: Option<bool>) -> Option<bool>
    ensures { result ≡ moments.both first second }
{
    match (first, second) {
        (Some(first), Some(second)) => Some(first && second),
        _ => None,
    }
}

// Whether one of them is TRUE; None where one is neither TRUE nor FALSE.
fn either(first: Option<bool>, second: Option<bool>) -> Option<bool>
    ensures { result ≡ moments.either first second }
{
    match (first, second) {
        (Some(first), Some(second)) => Some(first || second),
        _ => None,
    }
}

// Of the alternatives before a part, and of the one that goes on, behind it.
fn whole_behind(joint: Joint, whole: Option<bool>, current: Option<bool>) -> Option<bool>
    ensures { result ≡ moments.whole_behind joint whole current }
{
    match joint {
        Joint::And => whole,
        Joint::Or => either(whole, current),
    }
}

fn current_behind(joint: Joint, current: Option<bool>, part: Option<bool>) -> Option<bool>
    ensures { result ≡ moments.current_behind joint current part }
{
    match joint {
        Joint::And => both(current, part),
        Joint::Or => part,
    }
}

// Whether it is that truth value.
fn is_truth(wanted: bool, truth: Option<bool>) -> bool
    ensures { result ≡ moments.is_truth wanted truth }
{
    match truth {
        Some(truth) => agree(wanted, truth),
        None => false,
    }
}

// The last instant before this one.
fn before(instant: i64) -> i64
    ensures { result ≡ scans.before instant }
{
    instant.saturating_sub(1)
}

#[tactic(auto, unfolding(crate::specs::Running::Benches::IsReady, crate::specs::Running::Benches::Stands, crate::specs::Running::Benches::Accepted, crate::specs::Running::Benches::debugger_in, crate::specs::Running::Benches::steered_in))]
impl Bench {
    /// A bench with a debugger that was told nothing. The one error is that memory was refused.
    pub fn new(alloc: Global, debugger: Debugger) -> Result<Bench, AllocError>
        ensures ready { IfOk result (λ bench. IsReady bench) }
        ensures steered { IfOk result (λ bench. steered_in bench ≡ steered_by debugger) }
    {
        let opening = DebugOpening::new(alloc, &debugger)?;
        let tasks = debugger.resource().plant().tasks().len();
        let told = vec![in alloc; 0u64; tasks]?;
        Ok(Bench {
            debugger,
            opening,
            clock: 0,
            last: 0,
            told,
            stimuli: Vec::new(alloc),
            trail: Trail::new(alloc),
        })
    }

    /// A case begins: nothing was accepted, and the clock stands at 0.
    pub fn begin(&mut self)
        requires ready { IsReady self.old }
        ensures ready { IsReady self.new }
        ensures steered { steered_in self.new ≡ steered_in self.old }
        ensures stands { Stands self.new moments.opening }
    {
        self.debugger.restore(&self.opening);
        self.clock = 0;
        self.last = 0;
        self.told.fill(0);
        self.stimuli.clear();
        self.trail.begin();
    }

    /// From now on what is accepted is kept, or not.
    pub fn keep_trail(&mut self, is_kept: bool)
        ensures ready { IsReady self.old → IsReady self.new }
        ensures steered { steered_in self.new ≡ steered_in self.old }
    {
        self.trail.keep(is_kept);
    }

    /// What was accepted, where it is kept, the first first; it isn't kept any more.
    pub fn take_trail(&mut self, alloc: Global) -> Option<Vec<Timed>>
        ensures ready { IsReady self.old → IsReady self.new }
        ensures steered { steered_in self.new ≡ steered_in self.old }
    {
        self.trail.take(alloc)
    }

    /// Gives a command at its instant.
    pub fn repeat(&mut self, timed: Timed)
        ensures ready { IsReady self.old → IsReady self.new }
        ensures steered { steered_in self.new ≡ steered_in self.old }
    {
        let _given = self.attempt(timed.command, timed.raw);
    }

    /// The debugger to which commands are given.
    pub fn debugger(&self) -> &Debugger {
        &self.debugger
    }

    /// The resource.
    pub fn resource(&self) -> &Resource
        ensures { core.plant_of result.now ≡ (steered_in self.now).plant }
    {
        self.debugger.resource()
    }

    /// Where the clock stands.
    pub fn clock(&self) -> i64
        ensures { (m : Moment) → Stands self.now m → result ≡ m.clock }
    {
        self.clock
    }

    /// The clock goes to an instant.
    pub fn go_to(&mut self, instant: Instant)
        ensures ready { IsReady self.old → IsReady self.new }
        ensures steered { steered_in self.new ≡ steered_in self.old }
        ensures stands { (m : Moment) → Stands self.old m → Stands self.new (moments.at_instant m instant) }
    {
        self.clock = instant.after(self.clock);
    }

    /// The clock goes on to an instant, where it stands before it.
    pub fn go_on_to(&mut self, limit: i64)
        ensures ready { IsReady self.old → IsReady self.new }
        ensures steered { steered_in self.new ≡ steered_in self.old }
        ensures stands { (m : Moment) → Stands self.old m →
            Stands self.new (record { history = m.history; clock = dues.later m.clock limit; stimuli = m.stimuli }) }
    {
        self.clock = later(self.clock, limit);
    }

    // How many overruns the latest scan of the task told that a command scans; none where it scans none.
    fn told_before(&self, command: Command) -> u64
        ensures { (m : Moment) → Stands self.now m → IfSome (holding.task_of command) (λ task.
            result ≡ holding.told_overruns (steered_in self.now) m.history task) }
    {
        match task_of(command) {
            Some(task) => told_in(&self.told, task),
            None => 0,
        }
    }

    /// How many overruns a task has; none where it isn't there.
    pub fn overruns(&self, task: TaskId) -> u64
        ensures agrees { (h : CommandHistory) → Agrees (benches.debugger_in self.now) h → result ≡ holding.overruns_at (steered_in self.now) h task }
        ensures value { (m : Moment) → Stands self.now m → result ≡ holding.overruns_at (steered_in self.now) m.history task }
    {
        let resource = self.debugger.resource();
        if usize::from(task.0) < resource.plant().tasks().len() {
            resource.overruns(task)
        } else {
            0
        }
    }

    // Keeps what later commands need of one that was just accepted.
    fn keep(&mut self, command: Command, raw: i64)
        ensures ready { IsReady self.old → IsReady self.new }
        ensures steered { steered_in self.new ≡ steered_in self.old }
        ensures stands { (m : Moment) → benches.Accepted self.old m (command, raw) →
            Stands self.new (record { history = (command, raw) ∷ m.history; clock = m.clock; stimuli = m.stimuli }) }
    {
        self.last = raw;
        self.trail.note(Timed { command, raw });
        if let Some(task) = task_of(command) {
            let overruns = self.overruns(task);
            keep_told(&mut self.told, task, overruns);
        }
    }

    // Gives a command at a raw instant; the clock stays.
    fn attempt(&mut self, command: Command, raw: i64) -> Given
        ensures ready { IsReady self.old → IsReady self.new }
        ensures steered { steered_in self.new ≡ steered_in self.old }
        ensures given { (m : Moment) → Stands self.old m → benches.IsGiven (steered_in self.old) m (command, raw) result }
        ensures stands { (m : Moment) → Stands self.old m → Stands self.new
            (record {
              history = (debugger_of (steered_in self.old)).after m.history (command, raw);
              clock = m.clock;
              stimuli = m.stimuli;
            }) }
    {
        let overruns = self.told_before(command);
        let answer = self.debugger.obey(Timed { command, raw });
        if answer.is_ok() {
            self.keep(command, raw);
        }
        Given {
            command,
            answer,
            overruns,
            stimulus: None,
        }
    }

    /// Gives a command at the clock's instant.
    pub fn give(&mut self, command: Command) -> Given
        ensures ready { IsReady self.old → IsReady self.new }
        ensures steered { steered_in self.new ≡ steered_in self.old }
        ensures gives { (m : Moment) → Stands self.old m → benches.GivesAt (steered_in self.old) m (command, m.clock) result self.new }
    {
        self.attempt(command, self.clock)
    }

    // Scans the task whose turn it is at a raw instant.
    fn take_turn(&mut self, raw: i64) -> Turn
        ensures ready { IsReady self.old → IsReady self.new }
        ensures steered { steered_in self.new ≡ steered_in self.old }
        ensures takes { (m : Moment) → Stands self.old m → benches.TakesTurn (steered_in self.old) m raw result self.new }
    {
        let tasks = self.debugger.resource().plant().tasks().len();
        let mut earliest = None;
        'tasks: for number in 0..tasks {
            let given = self.attempt(Command::Scan(TaskId(number as u8)), raw);
            if !is_out_of_turn(given.answer) {
                self.clock = raw;
                return Turn::Taken(given);
            }
            earliest = earlier(earliest, release_in(given.answer));
        }
        Turn::NoTurn(earliest)
    }

    // Scans the task whose turn it is at a raw instant, or the first task where it is no task's turn.
    fn scan_at(&mut self, raw: i64) -> Given
        ensures ready { IsReady self.old → IsReady self.new }
        ensures steered { steered_in self.new ≡ steered_in self.old }
        ensures gives { (m : Moment) → Stands self.old m →
            benches.GivesAt (steered_in self.old) m (scanning.scan_at (steered_in self.old) m.history raw) result self.new }
    {
        match self.take_turn(raw) {
            Turn::Taken(given) => given,
            Turn::NoTurn(_) => {
                self.clock = raw;
                self.attempt(Command::Scan(TaskId(0)), raw)
            }
        }
    }

    // The raw instant of a run instant, where the resource runs on from the last accepted command; as far as 64 bits go.
    fn raw_of(&self, next: i64) -> i64
        ensures { (m : Moment) → Stands self.now m → result ≡ scanning.raw_of (last_instant m.history)
            ((debugger_of (steered_in self.now)).state m.history).clock.instant next }
    {
        let stretch = next.saturating_sub(self.debugger.run_instant());
        self.last.saturating_add(stretch)
    }

    // Gives the scan that comes next: of the task whose turn it is at the clock's instant, or where it is no task's turn then, at the
    // earliest next release of all tasks; the clock goes there. None, and nothing changes, where none comes up to the limit, a raw instant.
    fn next_scan(&mut self, limit: i64) -> Option<Given>
        ensures ready { IsReady self.old → IsReady self.new }
        ensures steered { steered_in self.new ≡ steered_in self.old }
        ensures gives { (m : Moment) → Stands self.old m →
            benches.GivesScan (steered_in self.old) m (scans.next_scan (steered_in self.old) limit m) result self.new }
    {
        if self.clock > limit {
            return None;
        }
        match self.take_turn(self.clock) {
            Turn::Taken(given) => Some(given),
            Turn::NoTurn(None) => None,
            Turn::NoTurn(Some(next)) => {
                let raw = self.raw_of(next);
                if raw <= limit {
                    return Some(self.scan_at(raw));
                }
                None
            }
        }
    }

    // The stimulus whose command comes next, where that is given up to a limit.
    fn due_by(&self, limit: i64) -> Option<Due>
        ensures { (m : Moment) → Stands self.now m → result ≡ dues.due_by m limit }
    {
        let due = first_due(self.stimuli.as_slice(), self.clock)?;
        if later(self.clock, due.instant) <= limit {
            Some(due)
        } else {
            None
        }
    }

    // The stimulus of this place is left as it is behind its next command.
    fn advance(&mut self, due: Due)
        ensures ready { IsReady self.old → IsReady self.new }
        ensures steered { steered_in self.new ≡ steered_in self.old }
        ensures stands { (m : Moment) → Stands self.old m → Stands self.new (record {
          history = m.history;
          clock = m.clock;
          stimuli = slice_set m.stimuli due.place (stimuli.behind_one due.instant due.stimulus);
        }) }
    {
        if due.place < self.stimuli.len() {
            self.stimuli[due.place] = due.stimulus.behind_one(due.instant);
        }
    }

    // Gives the command of a stimulus, at the clock's instant where it is wanted before.
    fn stir(&mut self, due: Due) -> Given
        ensures ready { IsReady self.old → IsReady self.new }
        ensures steered { steered_in self.new ≡ steered_in self.old }
        ensures gives { (m : Moment) → Stands self.old m →
            benches.GivesStep (steered_in self.old) m (Some (dues.stimulus_step m due)) (Some result) self.new }
    {
        self.clock = later(self.clock, due.instant);
        self.advance(due);
        let given = self.attempt(due.stimulus.command, self.clock);
        Given {
            stimulus: Some(due.place),
            ..given
        }
    }

    /// Gives what comes next up to a limit, a raw instant: the scan that does, or the command of a stimulus, which goes before a scan of
    /// the same instant; the clock goes there. None, and nothing changes, where nothing comes.
    pub fn next(&mut self, limit: i64) -> Option<Given>
        ensures ready { IsReady self.old → IsReady self.new }
        ensures steered { steered_in self.new ≡ steered_in self.old }
        ensures gives { (m : Moment) → Stands self.old m →
            benches.GivesStep (steered_in self.old) m (scans.next_step (steered_in self.old) limit m) result self.new }
    {
        let Some(due) = self.due_by(limit) else {
            return self.next_scan(limit);
        };
        match self.next_scan(before(later(self.clock, due.instant))) {
            Some(given) => Some(given),
            None => Some(self.stir(due)),
        }
    }

    /// A stimulus begins at the clock's instant. The one error is that memory was refused.
    pub fn begin_stimulus(&mut self, stimulus: Stimulus) -> Result<(), AllocError>
        ensures ready { IsReady self.old → IsReady self.new }
        ensures steered { steered_in self.new ≡ steered_in self.old }
        ensures stands { (m : Moment) → Stands self.old m → OnOk result (Stands self.new (record {
          history = m.history;
          clock = m.clock;
          stimuli = m.stimuli ++ stimuli.begun m.clock stimulus ∷ [];
        })) }
    {
        self.stimuli.push(stimulus.begun(self.clock))?;
        Ok(())
    }

    /// A window on a program instance, where it is there.
    pub fn view(&self, program: ProgId) -> Option<ProgramView<'_>>
        ensures none { result ≡ None → moments.is_there (steered_in self.now) program ≡ false }
        ensures some { IfSome result (λ view. benches.IsWindow (steered_in self.now) program view) }
        ensures shows { (m : Moment) → Stands self.now m → IfSome result (λ view.
            Shows view (moments.plant_at (steered_in self.now) m).changes (holding.instance_at (steered_in self.now) m program)) }
    {
        let resource = self.debugger.resource();
        if usize::from(program.0) >= resource.plant().instances().len() {
            return None;
        }
        Some(resource.program(program))
    }

    // Whether a part of a condition is TRUE; None where its evaluation ends with a fault.
    fn truth_at(&self, condition: &BreakCondition) -> Option<bool>
        ensures { (m : Moment) → Stands self.now m → result ≡ moments.truth_at (steered_in self.now) m condition.now }
    {
        window();
        let view = self.view(condition.program)?;
        let mut ticks = Ticks::new();
        truth_of(eval(condition.condition.expr(), &view, &mut ticks))
    }

    // Whether a condition is TRUE; None where the evaluation of a part ends with a fault.
    fn truth(&self, condition: &Condition) -> Option<bool>
        ensures { (m : Moment) → Stands self.now m → result ≡ moments.truth (steered_in self.now) m condition.now }
    {
        let mut whole = Some(false);
        let mut current = Some(false);
        let mut rest = condition.parts.as_slice();
        'parts: while let Some((part, others)) = rest.split_first() {
            whole = whole_behind(part.joint, whole, current);
            current = current_behind(part.joint, current, self.truth_at(&part.condition));
            rest = others;
        }
        either(whole, current)
    }

    /// Whether a condition is TRUE, or FALSE, as is wanted; one with a part whose evaluation ends with a fault is neither.
    pub fn reads(&self, wanted: bool, condition: &Condition) -> bool
        ensures { (m : Moment) → Stands self.now m → result ≡ moments.reads (steered_in self.now) m wanted condition.now }
    {
        is_truth(wanted, self.truth(condition))
    }

    /// Whether there is a condition and it is TRUE.
    pub fn is_met(&self, until: &Option<Condition>) -> bool
        ensures { (m : Moment) → Stands self.now m → result ≡ scans.is_met (steered_in self.now) until.now m }
    {
        match until {
            Some(condition) => self.reads(true, condition),
            None => false,
        }
    }

    /// Whether just these steps of a program instance are active (2.6.2).
    pub fn are_active(&self, program: ProgId, steps: &[StepId]) -> bool
        ensures { (m : Moment) → Stands self.now m → result ≡ holding.are_active (steered_in self.now) m program steps.now }
    {
        let Some(view) = self.view(program) else {
            return false;
        };
        'steps: for number in 0..view.tables().steps() {
            let step = StepId(number as u16);
            if !agree(view.active(step), is_among(steps, step)) {
                return false;
            }
        }
        true
    }

    /// The fault with which a program instance stands, if it is there and has one.
    pub fn fault(&self, program: ProgId) -> Option<ScanFault>
        ensures { (m : Moment) → Stands self.now m → result ≡ holding.fault_at (steered_in self.now) m program }
    {
        match self.view(program) {
            Some(view) => view.fault(),
            None => None,
        }
    }
}
