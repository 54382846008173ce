//! Tasks (2.7.2).

ghost use Rattle.std.specs.Prelude.{◌≡◌, ◌<◌, None, length};
ghost use Rattle.sfc_plant.specs.Sound.{IsPlant, IsSingle};
ghost use Rattle.sfc_replay.specs.sfc_instances.Singles.{single_in};
ghost use Rattle.sfc_replay.specs.sfc_tasks.Multiples.{multiples_to as count_to, next_multiple as next_after, next_release as next_release_of};
ghost use Rattle.sfc_replay.specs.sfc_core.Agreement.{Agrees as ResourceAgrees, plant_of};
ghost use Rattle.sfc_replay.specs.sfc_core.PlantState.{state_of};
ghost use Rattle.sfc_replay.specs.sfc_debug.Agreement.{Agrees};
ghost use Rattle.sfc_replay.specs.sfc_debug.Histories.{CommandHistory};
ghost use Rattle.sfc_events.specs.History.{History};
ghost use Rattle.sfc_replay.specs.sfc_debug.Steered.{Steered, steered_by};
ghost use Rattle.sfc_c.specs.Codes as codes;
ghost use Rattle.sfc_c.specs.Handles.{Holds};
ghost use Rattle.sfc_c.specs.Readings as readings;

use crate::handle::Handle;
use crate::sfc_core::resource::Resource;
use crate::sfc_debug::debugger::Debugger;
use crate::status::{CLOSED, UNKNOWN};
use sfc_base::ids::{TaskId, VarId};
use sfc_base::references::GlobalId;
use sfc_plant::task::Task;
use std::alloc::Global;

/// The last instant.
const LATEST: u64 = 1 << 62;

/// How a task stands: `sfc_task_state_t` of `sfc.h`.
#[repr(C)]
#[derive(Clone, Copy)]
pub struct TaskState {
    /// The run instant of its next release by the interval behind that of the latest command, in microseconds; -1 where there is none.
    pub next: i64,
    /// Its overruns since the opening.
    pub overruns: u64,
}

// How many multiples of the interval are not after t.
fn multiples_to(interval: i64, t: i64) -> u64
    ensures { result ≡ count_to interval t }
{
    if interval > 0 && t >= 0 {
        t.unsigned_abs() / interval.unsigned_abs() + 1
    } else {
        0
    }
}

// The least multiple of the interval after t, or -1 where that is after the last instant.
fn next_multiple(interval: i64, t: i64) -> i64
    ensures { result ≡ codes.instant_or_none (next_after interval t) }
{
    if interval <= 0 {
        return -1;
    }
    let next = multiples_to(interval, t).saturating_mul(interval.unsigned_abs());
    if next <= LATEST { next as i64 } else { -1 }
}

// What the SINGLE of a task reads; FALSE where it has none.
fn read_single(resource: &Resource, single: Option<GlobalId>) -> bool
    requires sound { IsPlant (plant_of resource.now) }
    requires single { IsSingle (length (plant_of resource.now).globals) single }
    ensures { (h : History) → ResourceAgrees resource.now h →
        result ≡ single_in (plant_of resource.now) (state_of (plant_of resource.now) h).changes single }
{
    match single {
        Some(id) => resource.value(VarId(id.0 as u16)).is_true(),
        None => false,
    }
}

// The next release of a task behind t, where its SINGLE reads so; or -1.
fn next_by(task: &Task, single: bool, t: i64) -> i64
    ensures { result ≡ codes.instant_or_none (next_release_of task.now.interval single t) }
{
    if single {
        return -1;
    }
    next_multiple(task.interval, t)
}

// The next release of a task behind t, which is one of the plant's; or -1.
fn next_release(resource: &Resource, task: TaskId, t: i64) -> i64
    requires { task.0 < length (plant_of resource.now).tasks }
    ensures { (h : History) → ResourceAgrees resource.now h → result ≡ readings.next_of (plant_of resource.now) h task t }
{
    let task = &resource.plant().tasks()[task.0 as usize];
    next_by(task, read_single(resource, task.single), t)
}

// How a task stands, if there is one with this number.
fn task_in(debugger: &Debugger, task: TaskId) -> Option<TaskState>
    ensures { (h : CommandHistory) → Agrees debugger.now h → result ≡ readings.task_state (steered_by debugger.now) h task }
{
    let resource = debugger.resource();
    if (task.0 as usize) >= resource.plant().tasks().len() {
        return None;
    }
    Some(TaskState {
        next: next_release(resource, task, debugger.run_instant()),
        overruns: resource.overruns(task),
    })
}

/// How a task stands: its next release, and its overruns.
#[unsafe(no_mangle)]
pub extern "C" fn sfc_task_state(
    alloc: Global,
    plc: &mut Handle,
    task: u8,
    into: &mut TaskState,
) -> i32
    ensures state { (s : Steered) (h : CommandHistory) → Holds plc.old.value s h →
        readings.Gives (readings.task_state s h (record { 0 = task })) into.old into.new result }
    ensures kept { plc.new.value ≡ plc.old.value }
    ensures closed { plc.old.value ≡ None → result ≡ codes.closed }
{
    match plc.read(alloc, |debugger| task_in(debugger, TaskId(task))) {
        None => CLOSED,
        Some(None) => UNKNOWN,
        Some(Some(state)) => {
            *into = state;
            0
        }
    }
}
