//! One resource of a controller (2.7.1): a plant that runs by events.

ghost use Rattle.std.specs.Prelude.{◌≡◌, ◌<◌, ◌≤◌, ◌≤ℤ◌, ◌^◌, length, pos, negsuc, false};
ghost use Rattle.sfc_base.specs.declared.limits.TheConstants.{TASKS};
ghost use Rattle.sfc_tasks.specs.Agreement.{task_total};
ghost use Rattle.sfc_events.specs.History.{History};
ghost use Rattle.sfc_instances.specs.Agreement.{AreInstancesOf, InstancesAgree};
ghost use Rattle.sfc_instances.specs.PlantState.{PlantState};
ghost use Rattle.sfc_instances.specs.Singles.{singles_in};
ghost use Rattle.sfc_instances.proofs.OfOnePlant.{instances_prop};
ghost use Rattle.sfc_core.specs.Keeping.{Keeps};
ghost use Rattle.sfc_core.specs.Private.Alone.{HaveNoSingle};
ghost use Rattle.sfc_core.specs.Private.Ready.{flags_of};

use crate::changing::{change, outcome};
use crate::due::{refuse_turn, serve, tell_rises};
use crate::opening::Opening;
use crate::refusing::{refuse_event, refuse_instant};
use crate::sfc_instance::program_view::ProgramView;
use crate::singles::{Singles, has_single};
use sfc_base::ids::{ProgId, TaskId, VarId};
use sfc_base::limits::VARIABLES;
use sfc_base::ticks::Ticks;
use sfc_base::value::Value;
use sfc_events::event::{Event, Outcome};
use sfc_events::refusal::Refusal;
use sfc_instances::instances::Instances;
use sfc_plant::plant::Plant;
use sfc_tasks::table::TaskTable;
use std::alloc::{AllocError, Global};

/// A plant that runs by scans, inputs, forces, releases and resets. It keeps what the next event needs, and no history: what an
/// event costs is bounded by the plant. Of each SINGLE it keeps what it read after the latest event.
pub struct Resource {
    plant: Plant,
    instances: Instances,
    tasks: TaskTable,
    singles: Singles,
    last: i64,
    ghost whole: { AreInstancesOf plant instances } by { instances_prop plant instances },
    ghost tasks_sized: { task_total tasks ≡ length plant.tasks },
    ghost singles_sized: { length (flags_of singles) ≡ length plant.tasks },
    ghost few: { length plant.tasks ≤ TASKS },
    ghost no_single: { singles.maybe ≡ false → HaveNoSingle plant.tasks },
    ghost singles_read: { (state : PlantState) → InstancesAgree plant instances state → flags_of singles ≡ singles_in plant state.changes },
    ghost last_low: { negsuc 0 ≤ℤ last },
    ghost last_high: { last ≤ℤ pos (2 ^ 62) },
    ghost agrees: { ∥ ((h : History) × Keeps plant instances tasks last h) ∥₁ },
}

// By hand, so that a caller that drops one proves one call.
impl Drop for Resource {
    fn drop(self) {
        let Resource {
            plant: _,
            instances: _,
            tasks: _,
            singles: _,
            last: _,
        } = self;
    }
}

#[tactic(auto, unfolding(crate::specs::Agreement::Agrees, crate::specs::Agreement::plant_of))]
impl Resource {
    ghost use Rattle.std.specs.Prelude.{◌∷◌, ◌≤◌, [], List, None, OnOk, OnErr, IfOk, is_ok, ◌+◌, ◌*◌};
    ghost use Rattle.sfc_base.specs.Ticks.{Within};
    ghost use Rattle.sfc_instances.specs.sfc_image.Values.{variable_count};
    ghost use Rattle.sfc_instances.specs.sfc_instance.Views.{plant_in, instance_in, Shows};
    ghost use Rattle.sfc_events.specs.History.{TimedEvent, History, last_instant};
    ghost use Rattle.sfc_core.specs.PlantState.{state_of};
    ghost use Rattle.sfc_core.specs.Answers.{value_of, forced_of, instance_state_of, overruns_of};
    ghost use Rattle.sfc_core.specs.Verdict.{instant_refusal, event_refusal, first_refusal, or_then, answer, verdict, after, after_all, accepted};
    ghost use Rattle.sfc_core.specs.Work.{event_work, instances_work};
    ghost use Rattle.sfc_core.specs.Agreement.{Agrees, plant_of};
    ghost use Rattle.sfc_core.specs.Past.{history_past};
    ghost use Rattle.sfc_core.specs.Openings.{IsOpeningFor, past_of};
    ghost use Rattle.sfc_core.specs.Private.Naming.{IsKnown};
    ghost use Rattle.sfc_core.specs.Private.Ready.{IsReady};

    /// A resource that has seen no event: each variable has its initial value, none is forced, and no instance was
    /// scanned. All memory that events need is taken here; the one error is that memory was refused.
    pub fn open(alloc: Global, plant: Plant) -> Result<Resource, AllocError>
        ensures agrees { IfOk result (λ resource. Agrees resource []) }
        ensures plant { IfOk result (λ resource. plant_of resource ≡ plant) }
    {
        let instances = Instances::new(alloc, &plant)?;
        let tasks = TaskTable::new(&plant);
        let maybe_single = has_single(plant.tasks());
        let singles = Singles::read(&instances, &plant, maybe_single, &mut Ticks::new());
        Ok(Resource {
            plant,
            instances,
            tasks,
            singles,
            last: -1,
        })
    }

    // Why the event at t is refused by its instant and by what it names.
    #[inline(always)]
    fn refuse_named(&self, event: Event, t: i64) -> Option<Refusal>
        ensures value { (h : History) → Agrees self.now h → result ≡ or_then (instant_refusal (last_instant h) t)
            (event_refusal (plant_of self.now) (state_of (plant_of self.now) h).changes event) }
        ensures known { result ≡ None → IsKnown (plant_of self.now) event }
        ensures low { result ≡ None → pos 0 ≤ℤ t }
        ensures high { result ≡ None → t ≤ℤ pos (2 ^ 62) }
    {
        match refuse_instant(self.last, t) {
            Some(refusal) => Some(refusal),
            None => refuse_event(&self.plant, &self.instances, event),
        }
    }

    // An event that is not refused.
    #[inline(always)]
    fn accept(&mut self, event: Event, t: i64, ticks: &mut Ticks) -> Outcome
        requires low { pos 0 ≤ℤ t }
        requires high { t ≤ℤ pos (2 ^ 62) }
        requires known { IsKnown (plant_of self.old) event }
        requires ready { (h : History) → Agrees self.old h → IsReady (plant_of self.old) h event self.old.singles }
        ensures plant { plant_of self.new ≡ plant_of self.old }
        ensures value { (h : History) → Agrees self.old h → result ≡ answer (plant_of self.old) h event t }
        ensures agrees { (h : History) → Agrees self.old h → Agrees self.new ((event, t) ∷ h) }
        ensures ticks { Within (instances_work (plant_of self.old) event + 3 * length (plant_of self.old).tasks + 2) ticks.old ticks.new }
    {
        self.tasks.elapse(t, self.singles.as_slice(), ticks);
        serve(&mut self.tasks, event, ticks);
        let bits = change(&mut self.instances, &self.plant, event, t, ticks);
        tell_rises(
            &mut self.tasks,
            t,
            &mut self.singles,
            &self.instances,
            &self.plant,
            ticks,
        );
        self.last = t;
        outcome(event, bits, &self.tasks, ticks)
    }

    // One event, as `apply` says.
    #[inline(always)]
    fn decide(&mut self, event: Event, t: i64, ticks: &mut Ticks) -> Result<Outcome, Refusal>
        ensures plant { plant_of self.new ≡ plant_of self.old }
        ensures answer { (h : History) → Agrees self.old h → result ≡ verdict (plant_of self.old) h event t }
        ensures ok { OnOk result ((h : History) → Agrees self.old h → Agrees self.new ((event, t) ∷ h)) }
        ensures err { OnErr result (self.new ≡ self.old) }
        ensures ticks { Within (event_work (plant_of self.old) event) ticks.old ticks.new }
    {
        if let Some(refusal) = self.refuse_named(event, t) {
            return Err(refusal);
        }
        match refuse_turn(&self.tasks, self.singles.as_slice(), event, t, ticks) {
            Some(refusal) => Err(refusal),
            None => Ok(self.accept(event, t, ticks)),
        }
    }

    // The same of an event that is no scan. It is a function of its own, so that what a scan runs is compiled for scans alone.
    #[inline(always)]
    fn decide_other(&mut self, event: Event, t: i64, ticks: &mut Ticks) -> Result<Outcome, Refusal>
        ensures plant { plant_of self.new ≡ plant_of self.old }
        ensures answer { (h : History) → Agrees self.old h → result ≡ verdict (plant_of self.old) h event t }
        ensures ok { OnOk result ((h : History) → Agrees self.old h → Agrees self.new ((event, t) ∷ h)) }
        ensures err { OnErr result (self.new ≡ self.old) }
        ensures ticks { Within (event_work (plant_of self.old) event) ticks.old ticks.new }
    {
        self.decide(event, t, ticks)
    }

    /// One event at the instant t, in microseconds: what it is refused for, else what it answers. After a refusal the
    /// resource is as it was. It takes no memory.
    ///
    /// The refusals, of which the first that applies is given: `InstantRange` where t is below 0 or above 2^62,
    /// `ClockBack` where it is before the latest accepted event, `UnknownTask`, `UnknownProgram`, `UnknownVar`,
    /// `ValueType` where the value is not of the variable's type, `NotInput` where the variable is not located at %I,
    /// `NotForced`, `NotDue` where no release of the task waits, with the next one by its interval, and `Yield` where
    /// another task goes first. A forced scan is never refused for these last two.
    #[inline(never)]
    pub fn apply(&mut self, event: Event, t: i64, ticks: &mut Ticks) -> Result<Outcome, Refusal>
        ensures plant { plant_of self.new ≡ plant_of self.old }
        ensures answer { (h : History) → Agrees self.old h → result ≡ verdict (plant_of self.old) h event t }
        ensures ok { OnOk result ((h : History) → Agrees self.old h → Agrees self.new ((event, t) ∷ h)) }
        ensures err { OnErr result (self.new ≡ self.old) }
        ensures ticks { Within (event_work (plant_of self.old) event) ticks.old ticks.new }
    {
        if event.scanned_task().is_none() {
            return self.decide_other(event, t, ticks);
        }
        self.decide(event, t, ticks)
    }

    /// What an event at the instant t, in microseconds, would be refused for, as `apply` says; `None` where it would be accepted. It takes no
    /// memory.
    pub fn refuse(&self, event: Event, t: i64) -> Option<Refusal>
        ensures { (h : History) → Agrees self.now h → result ≡ first_refusal (plant_of self.now) h event t }
    {
        match self.refuse_named(event, t) {
            Some(refusal) => Some(refusal),
            None => {
                let singles = self.singles.as_slice();
                refuse_turn(&self.tasks, singles, event, t, &mut Ticks::new())
            }
        }
    }

    // One event, and whether it is accepted.
    fn is_accepted(&mut self, event: Event, t: i64, ticks: &mut Ticks) -> bool
        ensures plant { plant_of self.new ≡ plant_of self.old }
        ensures value { (h : History) → Agrees self.old h → result ≡ is_ok (verdict (plant_of self.old) h event t) }
        ensures agrees { (h : History) → Agrees self.old h → Agrees self.new (after (plant_of self.old) h (event, t)) }
    {
        match self.apply(event, t, ticks) {
            Ok(_) => true,
            Err(_) => false,
        }
    }

    /// Applies each of the events in turn, each at its instant in microseconds, and goes on after refusals. It answers how
    /// many were accepted. It takes no memory.
    pub fn run(&mut self, events: &[(Event, i64)]) -> u64
        ensures plant { plant_of self.new ≡ plant_of self.old }
        ensures count { (h : History) → Agrees self.old h → result ≡ accepted (plant_of self.old) h events.now }
        ensures agrees { (h : History) → Agrees self.old h → Agrees self.new (after_all (plant_of self.old) h events.now) }
    {
        let mut ticks = Ticks::new();
        let mut count: u64 = 0;
        for (event, t) in events {
            if self.is_accepted(*event, *t, &mut ticks) {
                count += 1;
            }
        }
        count
    }

    /// A window on the program instance, as its latest scan left it. The instance is one of the plant's.
    pub fn program(&self, instance: ProgId) -> ProgramView<'_>
        requires { instance.0 < length (plant_of self.now).instances }
        ensures plant { plant_in result ≡ plant_of self.now }
        ensures instance { instance_in result ≡ instance }
        ensures shows { (h : History) → Agrees self.now h →
            Shows result (state_of (plant_of self.now) h).changes (instance_state_of (plant_of self.now) h instance) }
    {
        self.instances.view(&self.plant, instance)
    }

    /// How many variables there are, at most 4,096.
    pub fn variables(&self) -> usize
        ensures count { result ≡ variable_count (plant_of self.now) }
        ensures limit { result ≤ VARIABLES }
    {
        let _instances = self.plant.instances();
        self.instances.image().variables()
    }

    /// What the variable reads: the value to which it is forced, if it is, else the stored one. The variable is one of the
    /// plant's.
    pub fn value(&self, id: VarId) -> Value
        requires { id.0 < variable_count (plant_of self.now) }
        ensures { (h : History) → Agrees self.now h → result ≡ value_of (plant_of self.now) h id }
    {
        self.instances.image().value(id)
    }

    /// The value to which the variable is forced, if it is. The variable is one of the plant's.
    pub fn forced(&self, id: VarId) -> Option<Value>
        requires { id.0 < variable_count (plant_of self.now) }
        ensures { (h : History) → Agrees self.now h → result ≡ forced_of (plant_of self.now) h id }
    {
        self.instances.image().forced(id)
    }

    /// The overruns of the task since the opening: of all its scans, how many releases beyond the first they served; at most
    /// 2^64 - 1, where the count stays. The task is one of the plant's.
    pub fn overruns(&self, task: TaskId) -> u64
        requires { task.0 < length (plant_of self.now).tasks }
        ensures { (h : History) → Agrees self.now h → result ≡ overruns_of (plant_of self.now) h task }
    {
        self.tasks.overruns(task, &mut Ticks::new())
    }

    /// Puts into the opening what the events so far leave for later ones. It takes no memory.
    #[tactic(auto, unfolding(crate::specs::Agreement::Agrees, crate::specs::Agreement::plant_of, crate::specs::Openings::IsOpeningFor))]
    pub fn save(&self, opening: &mut Opening)
        requires { IsOpeningFor (plant_of self.now) opening.old }
        ensures sizes { IsOpeningFor (plant_of self.now) opening.new }
        ensures saved { (h : History) → Agrees self.now h →
            past_of (plant_of self.now) opening.new ≡ history_past (plant_of self.now) h }
    {
        opening.instances.copy_from(&self.plant, &self.instances);
        opening.tasks.copy_from(&self.tasks, &mut Ticks::new());
        opening.last = self.last;
    }

    /// Goes on from the opening: what the resource was told before counts no more, and each later event gets the answer that
    /// it gets after the events that the opening stands for. It takes no memory.
    #[tactic(auto, unfolding(crate::specs::Agreement::Agrees, crate::specs::Agreement::plant_of, crate::specs::Openings::IsOpeningFor))]
    pub fn restore(&mut self, opening: &Opening)
        requires { IsOpeningFor (plant_of self.old) opening.now }
        ensures plant { plant_of self.new ≡ plant_of self.old }
        ensures restored { (h : History) →
            past_of (plant_of self.old) opening.now ≡ history_past (plant_of self.old) h → Agrees self.new h }
    {
        self.instances.copy_from(&self.plant, &opening.instances);
        let maybe_single = self.singles.maybe_some();
        self.singles = Singles::read(
            &self.instances,
            &self.plant,
            maybe_single,
            &mut Ticks::new(),
        );
        self.tasks.copy_from(&opening.tasks, &mut Ticks::new());
        self.last = opening.last;
    }

    /// The plant that was opened.
    pub fn plant(&self) -> &Plant
        ensures { result.now ≡ plant_of self.now }
    {
        &self.plant
    }
}
