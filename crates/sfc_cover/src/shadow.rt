//! Program instances that are told the events of a resource, each scan one instance at a time.

ghost use Rattle.std.specs.Prelude.{◌<◌, ◌≤ℤ◌, ◌^◌, pos, length};
ghost use Rattle.sfc_replay.specs.sfc_instances.Agreement.{AreInstancesOf, InstancesAgree};
ghost use Rattle.sfc_replay.specs.sfc_instances.PlantState.{PlantState, after_program, after_reset, after_task, program_scan};
ghost use Rattle.sfc_replay.specs.sfc_core.PlantState.{after_event};
ghost use Rattle.sfc_cover.specs.Private.Given.{IsGiven};
ghost use Rattle.sfc_cover.specs.Stages.{IsWatchOf};

use crate::sfc_instances::instances::Instances;
use crate::watch::Watch;
use sfc_base::ids::{ProgId, TaskId};
use sfc_base::ticks::Ticks;
use sfc_events::event::Event;
use sfc_plant::plant::Plant;

/// The last instant, in microseconds.
const LATEST: i64 = 1 << 62;

// A scan of one instance, which is watched.
fn scan_instance(
    instances: &mut Instances,
    plant: &Plant,
    instance: ProgId,
    t: i64,
    watch: &mut Watch,
)
    requires sizes { AreInstancesOf plant.now instances.old }
    requires watch { IsWatchOf plant.now watch.old }
    requires instance { instance.0 < length plant.now.instances }
    requires low { pos 0 ≤ℤ t }
    requires high { t ≤ℤ pos (2 ^ 62) }
    ensures sizes { AreInstancesOf plant.now instances.new }
    ensures watch { IsWatchOf plant.now watch.new }
    ensures agrees { (state : PlantState) → InstancesAgree plant.now instances.old state →
        InstancesAgree plant.now instances.new (after_program instance (program_scan plant.now t instance.0 state) state) }
{
    watch.look(instances, plant, instance, t);
    let scan_end = instances.scan_program(plant, instance, t, &mut Ticks::new());
    watch.note(instances, plant, instance, scan_end);
}

// A scan of a task: of its instances one after the other, in text order (2.7.2).
fn scan_task(instances: &mut Instances, plant: &Plant, task: TaskId, t: i64, watch: &mut Watch)
    requires sizes { AreInstancesOf plant.now instances.old }
    requires watch { IsWatchOf plant.now watch.old }
    requires low { pos 0 ≤ℤ t }
    requires high { t ≤ℤ pos (2 ^ 62) }
    ensures sizes { AreInstancesOf plant.now instances.new }
    ensures watch { IsWatchOf plant.now watch.new }
    ensures agrees { (state : PlantState) → InstancesAgree plant.now instances.old state →
        InstancesAgree plant.now instances.new (after_task plant.now task t 0 plant.now.instances state) }
{
    let all = plant.instances();
    for k in 0..all.len() {
        if all[k].task.0 == task.0 {
            scan_instance(instances, plant, ProgId(k as u8), t, watch);
        }
    }
}

// A reset of an instance, if there is such an instance.
fn reset(instances: &mut Instances, plant: &Plant, instance: ProgId)
    requires { AreInstancesOf plant.now instances.old }
    ensures sizes { AreInstancesOf plant.now instances.new }
    ensures agrees { (state : PlantState) → InstancesAgree plant.now instances.old state → instance.0 < length plant.now.instances →
        InstancesAgree plant.now instances.new (after_reset instance state) }
{
    if usize::from(instance.0) < plant.instances().len() {
        instances.reset(plant, instance, &mut Ticks::new());
    }
}

/// Tells the instances an event at t, in microseconds. Where the event may be given, they stand as it says then.
pub fn follow_event(
    instances: &mut Instances,
    plant: &Plant,
    event: Event,
    t: i64,
    watch: &mut Watch,
)
    requires sizes { AreInstancesOf plant.now instances.old }
    requires watch { IsWatchOf plant.now watch.old }
    ensures sizes { AreInstancesOf plant.now instances.new }
    ensures watch { IsWatchOf plant.now watch.new }
    ensures agrees { (state : PlantState) → InstancesAgree plant.now instances.old state → IsGiven plant.now state.changes event t →
        InstancesAgree plant.now instances.new (after_event plant.now event t state) }
{
    if t < 0 || t > LATEST {
        return;
    }
    let ticks = &mut Ticks::new();
    match event {
        Event::Scan(task) | Event::ForcedScan(task) => scan_task(instances, plant, task, t, watch),
        Event::Input(id, value) => {
            let _taken = instances.store(plant, id, value, ticks);
        }
        Event::Force(id, value) => {
            let _taken = instances.force(plant, id, value, ticks);
        }
        Event::Release(id) => {
            let _taken = instances.release(plant, id, ticks);
        }
        Event::Reset(instance) => reset(instances, plant, instance),
    }
}
