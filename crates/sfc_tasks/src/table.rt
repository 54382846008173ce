//! The tasks of a resource, in running form.

ghost use Rattle.sfc_base.specs.declared.limits.TheConstants.{TASKS};
ghost use Rattle.std.specs.Prelude.{◌≡◌, ◌<◌, ◌≤◌, ◌≤ℤ◌, ◌^◌, pos, ℕ, length, slice_get};
ghost use Rattle.sfc_base.specs.Ticks.{Within};
ghost use Rattle.sfc_tasks.specs.Calls.{single_of};
ghost use Rattle.sfc_tasks.specs.Releases.{interval_of};
ghost use Rattle.sfc_tasks.specs.Pick.{priority_in};
ghost use Rattle.sfc_tasks.specs.Private.Keeping.{AreAhead, Gains, elapsed_releases, empty_slot, slot_at};

use crate::multiples::next_multiple;
use crate::ranking::{Waiting, first_with};
use crate::task_slot::{TaskSlot, gain, no_slot, pass_time, serve_all, since_at, slot_of};
use sfc_base::ids::TaskId;
use sfc_base::limits::TASKS;
use sfc_base::ticks::Ticks;
use sfc_plant::plant::Plant;
use sfc_plant::task::Task;

/// Of each task whether it waits for a scan and since when, and its overruns.
#[derive(Drop)]
pub struct TaskTable {
    count: usize,
    last: i64,
    slots: [TaskSlot; TASKS],
    ghost few: { count ≤ TASKS },
    ghost ahead: { AreAhead slots count last },
}

// Time went on from `last` to t for each of these tasks.
fn elapse_all(slots: &mut [TaskSlot], singles: &[bool], last: i64, t: i64, ticks: &mut Ticks)
    requires len { length singles.now ≤ length slots.old }
    requires ahead { AreAhead slots.old (length singles.now) last }
    requires low { pos 0 ≤ℤ t }
    requires high { t ≤ℤ pos (2 ^ 62) }
    ensures len { length slots.new ≡ length slots.old }
    ensures each { (k : ℕ) → k < length singles.now → Gains
        (elapsed_releases (slot_at slots.old k).interval last t (single_of singles.now k))
        (slot_at slots.old k) (slot_at slots.new k) }
    ensures ahead { AreAhead slots.new (length singles.now) t }
    ensures ticks { Within (length singles.now) ticks.old ticks.new }
{
    for k in 0..singles.len() {
        ticks.tick();
        pass_time(&mut slots[k], last, t, singles[k]);
    }
}

// The same of one task alone, without a loop.
fn elapse_alone(slots: &mut [TaskSlot], singles: &[bool], last: i64, t: i64, ticks: &mut Ticks)
    requires alone { length singles.now ≡ 1 }
    requires len { length singles.now ≤ length slots.old }
    requires ahead { AreAhead slots.old (length singles.now) last }
    requires low { pos 0 ≤ℤ t }
    requires high { t ≤ℤ pos (2 ^ 62) }
    ensures len { length slots.new ≡ length slots.old }
    ensures each { (k : ℕ) → k < length singles.now → Gains
        (elapsed_releases (slot_at slots.old k).interval last t (single_of singles.now k))
        (slot_at slots.old k) (slot_at slots.new k) }
    ensures ahead { AreAhead slots.new (length singles.now) t }
    ensures ticks { Within (length singles.now) ticks.old ticks.new }
{
    ticks.tick();
    pass_time(&mut slots[0], last, t, singles[0]);
}

// A slot for each of these tasks.
fn fill_slots(slots: &mut [TaskSlot], tasks: &[Task])
    requires { length tasks.now ≤ length slots.old }
    ensures { (k : ℕ) → k < length tasks.now →
        slot_at slots.new k ≡ empty_slot (interval_of tasks.now k) (priority_in (slice_get tasks.now k)) }
{
    for k in 0..tasks.len() {
        slots[k] = slot_of(&tasks[k]);
    }
}

#[tactic(auto, unfolding(crate::specs::Agreement::TasksAgree), using(crate::proofs::Tables::elapse_agrees, crate::proofs::Tables::rise_agrees))]
impl TaskTable {
    ghost use Rattle.std.specs.Prelude.{◌≡◌, ◌≢◌, ◌<◌, ◌≤ℤ◌, ◌^◌, ◌∷◌, [], List, ℕ, pos, length, is_some, IfSome};
    ghost use Rattle.std.specs.Bool.{OnTrue, OnFalse};
    ghost use Rattle.sfc_base.specs.Ticks.{Within};
    ghost use Rattle.sfc_plant.specs.declared.task.Task.{Task};
    ghost use Rattle.sfc_tasks.specs.Multiples.{next_release};
    ghost use Rattle.sfc_tasks.specs.Calls.{Call, Elapsed, Rose, Served, single_of};
    ghost use Rattle.sfc_tasks.specs.Releases.{interval_of, waits_since, overruns};
    ghost use Rattle.sfc_tasks.specs.Pick.{picked};
    ghost use Rattle.sfc_tasks.specs.Agreement.{TasksAgree, task_total};
    ghost use Rattle.sfc_tasks.specs.Private.Keeping.{BestOf, slots_of};

    /// The tasks of the plant, none of which was told anything. It takes no memory.
    pub fn new(plant: &Plant) -> TaskTable
        ensures size { task_total result ≡ length plant.now.tasks }
        ensures agrees { TasksAgree plant.now.tasks result [] }
    {
        let tasks = plant.tasks();
        let mut slots = [no_slot(); TASKS];
        fill_slots(&mut slots, tasks);
        TaskTable {
            count: tasks.len(),
            last: -1,
            slots,
        }
    }

    /// Time goes on to t, in microseconds from 0 to 2^62: each multiple of a task's interval after the instant before
    /// and not after t is a release of the task, but where its SINGLE reads TRUE (2.7.2). `singles` has what the SINGLE of
    /// each task read since the instant before, and FALSE for a task without one.
    #[inline(always)]
    pub fn elapse(&mut self, t: i64, singles: &[bool], ticks: &mut Ticks)
        requires singles { length singles.now ≡ task_total self.old }
        requires low { pos 0 ≤ℤ t }
        requires high { t ≤ℤ pos (2 ^ 62) }
        ensures size { task_total self.new ≡ task_total self.old }
        ensures agrees { (tasks : List Task) (calls : List Call) → TasksAgree tasks self.old calls →
            TasksAgree tasks self.new (Elapsed t singles.now ∷ calls) }
        ensures ticks { Within (task_total self.old) ticks.old ticks.new }
    {
        let last = self.last;
        self.last = t;
        if self.count == 1 {
            elapse_alone(&mut self.slots, singles, last, t, ticks);
        } else {
            elapse_all(&mut self.slots, singles, last, t, ticks);
        }
    }

    /// What the task's SINGLE reads rose at t, in microseconds: a release of the task, also at the instant of a multiple (2.7.2;
    /// our choice).
    pub fn edge(&mut self, task: TaskId, t: i64, ticks: &mut Ticks)
        requires { task.0 < task_total self.old }
        ensures size { task_total self.new ≡ task_total self.old }
        ensures agrees { (tasks : List Task) (calls : List Call) → TasksAgree tasks self.old calls →
            TasksAgree tasks self.new (Rose task t ∷ calls) }
        ensures ticks { Within 1 ticks.old ticks.new }
    {
        ticks.tick();
        let k = task.0 as usize;
        gain(&mut self.slots[k], t, 0);
    }

    /// Whether there is one task alone.
    pub fn is_alone(&self) -> bool
        ensures yes { OnTrue result (task_total self.now ≡ 1) }
        ensures no { OnFalse result (task_total self.now ≢ 1) }
    {
        self.count == 1
    }

    // Of the tasks that wait at t, the one that goes first.
    fn best(&self, t: i64, singles: &[bool], ticks: &mut Ticks) -> Option<Waiting>
        requires singles { length singles.now ≡ task_total self.now }
        requires low { pos 0 ≤ℤ t }
        requires high { t ≤ℤ pos (2 ^ 62) }
        ensures first { (tasks : List Task) (calls : List Call) → TasksAgree tasks self.now calls →
            BestOf (slots_of tasks (Elapsed t singles.now ∷ calls)) (task_total self.now) result }
        ensures number { IfSome result (λ first. first.number < task_total self.now) }
        ensures ticks { Within (task_total self.now) ticks.old ticks.new }
    {
        let mut best = None;
        for i in 0..self.count {
            ticks.tick();
            let since = since_at(&self.slots[i], t, singles[i]);
            best = first_with(since, self.slots[i].priority, best, i);
        }
        best
    }

    /// Of the tasks that wait at t, in microseconds from 0 to 2^62, the one that goes first: that with the lowest priority number, then
    /// the one that waits longest, then the first in the table (2.7.2). `None` where no task waits. Time doesn't go on; `singles` is as
    /// for `elapse`.
    pub fn pick(&self, t: i64, singles: &[bool], ticks: &mut Ticks) -> Option<TaskId>
        requires singles { length singles.now ≡ task_total self.now }
        requires low { pos 0 ≤ℤ t }
        requires high { t ≤ℤ pos (2 ^ 62) }
        ensures value { (tasks : List Task) (calls : List Call) → TasksAgree tasks self.now calls →
            result ≡ picked tasks (Elapsed t singles.now ∷ calls) }
        ensures ticks { Within (task_total self.now) ticks.old ticks.new }
    {
        match self.best(t, singles, ticks) {
            Some(first) => Some(TaskId(first.number as u8)),
            None => None,
        }
    }

    /// The next release of the task by its interval, after t: the least multiple above t. `None` where that is after
    /// 2^62, where the task has no interval, and while its SINGLE reads TRUE (2.7.2). In microseconds.
    pub fn next(&self, task: TaskId, t: i64, singles: &[bool], ticks: &mut Ticks) -> Option<i64>
        requires task { task.0 < task_total self.now }
        requires singles { length singles.now ≡ task_total self.now }
        ensures next { (tasks : List Task) (calls : List Call) → TasksAgree tasks self.now calls →
            result ≡ next_release (interval_of tasks task.0) (single_of singles.now task.0) t }
        ensures ticks { Within 1 ticks.old ticks.new }
    {
        ticks.tick();
        let k = task.0 as usize;
        if singles[k] {
            return None;
        }
        next_multiple(self.slots[k].interval, t)
    }

    /// A scan of the task, which serves all its releases that wait; each one beyond the first is an overrun (our
    /// choice).
    pub fn serve(&mut self, task: TaskId, ticks: &mut Ticks)
        requires { task.0 < task_total self.old }
        ensures size { task_total self.new ≡ task_total self.old }
        ensures agrees { (tasks : List Task) (calls : List Call) → TasksAgree tasks self.old calls →
            TasksAgree tasks self.new (Served task ∷ calls) }
        ensures ticks { Within 1 ticks.old ticks.new }
    {
        ticks.tick();
        if self.count == 1 {
            serve_all(&mut self.slots[0]);
            return;
        }
        let k = task.0 as usize;
        serve_all(&mut self.slots[k]);
    }

    /// Whether a release of the task waits at t, in microseconds from 0 to 2^62. Time doesn't go on; `singles` is as for `elapse`.
    pub fn waits(&self, task: TaskId, t: i64, singles: &[bool], ticks: &mut Ticks) -> bool
        requires task { task.0 < task_total self.now }
        requires singles { length singles.now ≡ task_total self.now }
        requires low { pos 0 ≤ℤ t }
        requires high { t ≤ℤ pos (2 ^ 62) }
        ensures value { (tasks : List Task) (calls : List Call) → TasksAgree tasks self.now calls →
            result ≡ is_some (waits_since tasks (Elapsed t singles.now ∷ calls) task.0) }
        ensures ticks { Within 1 ticks.old ticks.new }
    {
        ticks.tick();
        let k = task.0 as usize;
        since_at(&self.slots[k], t, singles[k]).is_some()
    }

    /// The overruns of the task, up to 2^64 - 1, where the count stays.
    pub fn overruns(&self, task: TaskId, ticks: &mut Ticks) -> u64
        requires { task.0 < task_total self.now }
        ensures value { (tasks : List Task) (calls : List Call) → TasksAgree tasks self.now calls →
            result ≡ overruns (interval_of tasks task.0) task.0 calls }
        ensures ticks { Within 1 ticks.old ticks.new }
    {
        ticks.tick();
        self.slots[task.0 as usize].overruns
    }

    /// Takes over what the other was told. It takes no memory.
    pub fn copy_from(&mut self, other: &TaskTable, ticks: &mut Ticks)
        ensures size { task_total self.new ≡ task_total other.now }
        ensures agrees { (tasks : List Task) (calls : List Call) → TasksAgree tasks other.now calls →
            TasksAgree tasks self.new calls }
        ensures ticks { Within (task_total other.now) ticks.old ticks.new }
    {
        ticks.tick_all(other.count);
        self.count = other.count;
        self.last = other.last;
        self.slots = other.slots;
    }
}
