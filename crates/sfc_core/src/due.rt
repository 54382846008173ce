//! The tasks at the instant of an event (2.7.2).

ghost use Rattle.std.specs.Prelude.{◌≡◌, ◌<◌, ◌≤◌, ◌+◌, ◌*◌, ◌≤ℤ◌, ◌^◌, ◌∷◌, ◌&&◌, not, false, pos, List, length, Some};
ghost use Rattle.std.specs.Bool.{OnTrue};
ghost use Rattle.sfc_base.specs.declared.limits.TheConstants.{TASKS};
ghost use Rattle.sfc_base.specs.Ticks.{Within};
ghost use Rattle.sfc_plant.specs.declared.task.Task.{Task};
ghost use Rattle.sfc_tasks.specs.Calls.{Call, Elapsed};
ghost use Rattle.sfc_tasks.specs.Agreement.{TasksAgree, task_total};
ghost use Rattle.sfc_events.specs.declared.event.Event.TheVariants as Event;
ghost use Rattle.sfc_instances.specs.Agreement.{AreInstancesOf, InstancesAgree};
ghost use Rattle.sfc_instances.specs.PlantState.{PlantState};
ghost use Rattle.sfc_instances.specs.Singles.{singles_in};
ghost use Rattle.sfc_core.specs.Due.{with_rises, with_service};
ghost use Rattle.sfc_core.specs.Verdict as verdict;
ghost use Rattle.sfc_core.specs.Verdict.{due_refusal, turn_refusal};
ghost use Rattle.sfc_core.specs.Private.Alone.{HaveNoSingle};
ghost use Rattle.sfc_core.specs.Private.Naming.{NamesTask};
ghost use Rattle.sfc_core.specs.Private.Ready.{flags_of};

use crate::singles::Singles;
use sfc_base::ids::TaskId;
use sfc_base::ticks::Ticks;
use sfc_events::event::Event;
use sfc_events::refusal::Refusal;
use sfc_instances::instances::Instances;
use sfc_plant::plant::Plant;
use sfc_tasks::table::TaskTable;

// Whether it was FALSE and is TRUE.
fn rose(before: bool, after: bool) -> bool
    ensures { result ≡ (not before && after) }
{
    !before && after
}

// Each SINGLE that read FALSE before and reads TRUE after rose at t.
fn tell_each(tasks: &mut TaskTable, t: i64, before: &[bool], after: &[bool], ticks: &mut Ticks)
    requires before { length before.now ≡ task_total tasks.old }
    requires after { length after.now ≡ task_total tasks.old }
    requires few { task_total tasks.old ≤ TASKS }
    ensures size { task_total tasks.new ≡ task_total tasks.old }
    ensures agrees { (all : List Task) (calls : List Call) → TasksAgree all tasks.old calls →
        TasksAgree all tasks.new (with_rises t 0 before.now after.now calls) }
    ensures ticks { Within (task_total tasks.old) ticks.old ticks.new }
{
    for k in 0..before.len() {
        if rose(before[k], after[k]) {
            tasks.edge(TaskId(k as u8), t, ticks);
        }
    }
}

/// What SINGLE reads after the event at t, in microseconds, in place of what it read before; each that read FALSE and reads TRUE
/// rose at t. Where no task has one, nothing is read.
#[inline(always)]
pub fn tell_rises(
    tasks: &mut TaskTable,
    t: i64,
    singles: &mut Singles,
    instances: &Instances,
    plant: &Plant,
    ticks: &mut Ticks,
)
    requires sizes { AreInstancesOf plant.now instances.now }
    requires len { length (flags_of singles.old) ≡ length plant.now.tasks }
    requires none { singles.old.maybe ≡ false → HaveNoSingle plant.now.tasks }
    requires tasks { task_total tasks.old ≡ length plant.now.tasks }
    ensures size { task_total tasks.new ≡ task_total tasks.old }
    ensures len { length (flags_of singles.new) ≡ length plant.now.tasks }
    ensures none { singles.new.maybe ≡ false → HaveNoSingle plant.now.tasks }
    ensures value { (state : PlantState) → InstancesAgree plant.now instances.now state →
        flags_of singles.new ≡ singles_in plant.now state.changes }
    ensures agrees { (all : List Task) (calls : List Call) → TasksAgree all tasks.old calls →
        TasksAgree all tasks.new (with_rises t 0 (flags_of singles.old) (flags_of singles.new) calls) }
    ensures ticks { Within (2 * length plant.now.tasks) ticks.old ticks.new }
{
    let maybe = singles.maybe_some();
    if !maybe {
        return;
    }
    let after = Singles::read(instances, plant, maybe, ticks);
    tell_each(tasks, t, singles.as_slice(), after.as_slice(), ticks);
    *singles = after;
}

// That no release of the task waits at t.
fn refuse_undue(
    tasks: &TaskTable,
    singles: &[bool],
    task: TaskId,
    t: i64,
    ticks: &mut Ticks,
) -> Option<Refusal>
    requires task { task.0 < task_total tasks.now }
    requires singles { length singles.now ≡ task_total tasks.now }
    requires low { pos 0 ≤ℤ t }
    requires high { t ≤ℤ pos (2 ^ 62) }
    ensures value { (all : List Task) (calls : List Call) → TasksAgree all tasks.now calls →
        result ≡ due_refusal all singles.now (Elapsed t singles.now ∷ calls) task t }
    ensures ticks { Within 2 ticks.old ticks.new }
{
    if tasks.waits(task, t, singles, ticks) {
        return None;
    }
    Some(Refusal::NotDue(tasks.next(task, t, singles, ticks)))
}

// That the task yields to this one, which goes first.
fn yield_to(task: TaskId, first: Option<TaskId>) -> Option<Refusal>
    ensures { result ≡ verdict.yield_to task first }
{
    match first {
        Some(first) => {
            if first.0 == task.0 {
                None
            } else {
                Some(Refusal::Yield(first))
            }
        }
        None => None,
    }
}

// Whether this one goes first.
fn is_first(task: TaskId, first: Option<TaskId>) -> bool
    ensures { OnTrue result (first ≡ Some task) }
{
    match first {
        Some(first) => first.0 == task.0,
        None => false,
    }
}

// Why a scan at t is not the task's turn. Where the task goes first, nothing else is asked. It is a function of its own, so that a
// task alone is compiled without it.
#[tactic(auto, unfolding(crate::specs::Verdict::turn_refusal))]
#[inline(never)]
fn refuse_among(
    tasks: &TaskTable,
    singles: &[bool],
    task: TaskId,
    t: i64,
    ticks: &mut Ticks,
) -> Option<Refusal>
    requires task { task.0 < task_total tasks.now }
    requires singles { length singles.now ≡ task_total tasks.now }
    requires low { pos 0 ≤ℤ t }
    requires high { t ≤ℤ pos (2 ^ 62) }
    ensures value { (all : List Task) (calls : List Call) → TasksAgree all tasks.now calls →
        result ≡ turn_refusal all singles.now (Elapsed t singles.now ∷ calls) (Event.Scan task) t }
    ensures ticks { Within (task_total tasks.now + 2) ticks.old ticks.new }
{
    let first = tasks.pick(t, singles, ticks);
    if is_first(task, first) {
        return None;
    }
    match refuse_undue(tasks, singles, task, t, ticks) {
        Some(refusal) => Some(refusal),
        None => yield_to(task, first),
    }
}

// The same, where one task alone yields to none.
#[tactic(auto, unfolding(crate::specs::Verdict::turn_refusal))]
#[inline(always)]
fn refuse_scan(
    tasks: &TaskTable,
    singles: &[bool],
    task: TaskId,
    t: i64,
    ticks: &mut Ticks,
) -> Option<Refusal>
    requires task { task.0 < task_total tasks.now }
    requires singles { length singles.now ≡ task_total tasks.now }
    requires low { pos 0 ≤ℤ t }
    requires high { t ≤ℤ pos (2 ^ 62) }
    ensures value { (all : List Task) (calls : List Call) → TasksAgree all tasks.now calls →
        result ≡ turn_refusal all singles.now (Elapsed t singles.now ∷ calls) (Event.Scan task) t }
    ensures ticks { Within (task_total tasks.now + 2) ticks.old ticks.new }
{
    if tasks.is_alone() {
        return refuse_undue(tasks, singles, task, t, ticks);
    }
    refuse_among(tasks, singles, task, t, ticks)
}

/// Why a scan at t, from 0 to 2^62 microseconds and not before the latest event, is not its task's turn: no release of it waits, or
/// another task goes first. `singles` has what the SINGLE of each task reads. No task is told anything.
#[tactic(auto, unfolding(crate::specs::Verdict::turn_refusal))]
#[inline(always)]
pub fn refuse_turn(
    tasks: &TaskTable,
    singles: &[bool],
    event: Event,
    t: i64,
    ticks: &mut Ticks,
) -> Option<Refusal>
    requires task { NamesTask (task_total tasks.now) event }
    requires singles { length singles.now ≡ task_total tasks.now }
    requires low { pos 0 ≤ℤ t }
    requires high { t ≤ℤ pos (2 ^ 62) }
    ensures value { (all : List Task) (calls : List Call) → TasksAgree all tasks.now calls →
        result ≡ turn_refusal all singles.now (Elapsed t singles.now ∷ calls) event t }
    ensures ticks { Within (task_total tasks.now + 2) ticks.old ticks.new }
{
    match event {
        Event::Scan(task) => refuse_scan(tasks, singles, task, t, ticks),
        Event::ForcedScan(_) => None,
        Event::Input(_, _) => None,
        Event::Force(_, _) => None,
        Event::Release(_) => None,
        Event::Reset(_) => None,
    }
}

/// A scan serves its task.
pub fn serve(tasks: &mut TaskTable, event: Event, ticks: &mut Ticks)
    requires { NamesTask (task_total tasks.old) event }
    ensures size { task_total tasks.new ≡ task_total tasks.old }
    ensures agrees { (all : List Task) (calls : List Call) → TasksAgree all tasks.old calls →
        TasksAgree all tasks.new (with_service event calls) }
    ensures ticks { Within 1 ticks.old ticks.new }
{
    if let Some(task) = event.scanned_task() {
        tasks.serve(task, ticks);
    }
}
