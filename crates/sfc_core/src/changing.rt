//! What an event does with the variables and the program instances.

ghost use Rattle.std.specs.Prelude.{◌≡◌, ◌≤ℤ◌, ◌^◌, pos, List};
ghost use Rattle.sfc_base.specs.Ticks.{Within};
ghost use Rattle.sfc_plant.specs.declared.task.Task.{Task};
ghost use Rattle.sfc_tasks.specs.Calls.{Call};
ghost use Rattle.sfc_tasks.specs.Agreement.{TasksAgree, task_total};
ghost use Rattle.sfc_instances.specs.Agreement.{AreInstancesOf, InstancesAgree};
ghost use Rattle.sfc_instances.specs.PlantState.{PlantState};
ghost use Rattle.sfc_core.specs.PlantState.{after_event};
ghost use Rattle.sfc_core.specs.Work.{instances_work};
ghost use Rattle.sfc_core.specs.Private.Naming.{IsKnown, IsTaken, NamesTask};
ghost use Rattle.sfc_core.specs.Private.Ending.{AreEventBits, outcome_by};

use sfc_base::ticks::Ticks;
use sfc_events::event::{Event, Outcome};
use sfc_instances::bits::Bits;
use sfc_instances::instances::Instances;
use sfc_plant::plant::Plant;
use sfc_tasks::table::TaskTable;

/// The event at t, from 0 to 2^62 microseconds, which the plant's variables take; how the scans of a task's instances
/// ended. What they don't take changes nothing.
#[inline(always)]
pub fn change(
    instances: &mut Instances,
    plant: &Plant,
    event: Event,
    t: i64,
    ticks: &mut Ticks,
) -> Bits
    requires sizes { AreInstancesOf plant.now instances.old }
    requires known { IsKnown plant.now event }
    requires low { pos 0 ≤ℤ t }
    requires high { t ≤ℤ pos (2 ^ 62) }
    ensures sizes { AreInstancesOf plant.now instances.new }
    ensures bits { (state : PlantState) → InstancesAgree plant.now instances.old state → AreEventBits plant.now event t state result }
    ensures agrees { (state : PlantState) → InstancesAgree plant.now instances.old state → IsTaken plant.now state.changes event →
        InstancesAgree plant.now instances.new (after_event plant.now event t state) }
    ensures ticks { (state : PlantState) → InstancesAgree plant.now instances.old state →
        Within (instances_work plant.now event) ticks.old ticks.new }
{
    match event {
        Event::Scan(task) | Event::ForcedScan(task) => {
            return instances.scan(plant, task, t, ticks);
        }
        Event::Input(id, value) => {
            let _taken = instances.store(plant, id, value, ticks);
        }
        Event::Force(id, value) => {
            let _taken = instances.force(plant, id, value, ticks);
        }
        Event::Release(id) => {
            let _taken = instances.release(plant, id, ticks);
        }
        Event::Reset(instance) => instances.reset(plant, instance, ticks),
    }
    Bits::none()
}

/// What an accepted event answers: the bits of a scan, and the overruns of its task.
pub fn outcome(event: Event, bits: Bits, tasks: &TaskTable, ticks: &mut Ticks) -> Outcome
    requires { NamesTask (task_total tasks.now) event }
    ensures value { (all : List Task) (calls : List Call) → TasksAgree all tasks.now calls → result ≡ outcome_by all calls bits event }
    ensures ticks { Within 1 ticks.old ticks.new }
{
    let Some(task) = event.scanned_task() else {
        return Outcome::Done;
    };
    Outcome::Scanned {
        ran: bits.ran,
        faulted: bits.faulted,
        skipped: bits.skipped,
        overruns: tasks.overruns(task, ticks),
    }
}
