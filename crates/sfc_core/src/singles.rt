//! What the SINGLE of tasks reads (2.7.2).

ghost use Rattle.sfc_base.specs.declared.limits.TheConstants.{TASKS};
ghost use Rattle.std.specs.Prelude.{◌≡◌, ◌≤◌, ℕ, false, slice_index_or};
ghost use Rattle.sfc_core.specs.Private.Alone.{HaveNoSingle};

use sfc_base::limits::TASKS;
use sfc_base::ticks::Ticks;
use sfc_instances::instances::Instances;
use sfc_plant::plant::Plant;
use sfc_plant::task::Task;

/// What the SINGLE of each task of a plant reads, by the task's number; and whether one may read TRUE.
#[derive(Drop)]
pub struct Singles {
    flags: [bool; TASKS],
    count: usize,
    maybe: bool,
    ghost few: { count ≤ TASKS },
    ghost none: { maybe ≡ false → (k : ℕ) → slice_index_or flags k false ≡ false },
}

/// Whether some task has a SINGLE.
pub fn has_single(tasks: &[Task]) -> bool
    ensures { result ≡ false → HaveNoSingle tasks.now }
{
    for task in tasks {
        if task.single.is_some() {
            return true;
        }
    }
    false
}

impl Singles {
    ghost use Rattle.std.specs.Prelude.{◌≡◌, ◌≤◌, false, true, length};
    ghost use Rattle.sfc_base.specs.Ticks.{Within};
    ghost use Rattle.sfc_instances.specs.Agreement.{AreInstancesOf, InstancesAgree};
    ghost use Rattle.sfc_instances.specs.Singles.{singles_in};
    ghost use Rattle.sfc_instances.specs.PlantState.{PlantState};
    ghost use Rattle.sfc_core.specs.Private.Alone.{HaveNoSingle};
    ghost use Rattle.sfc_core.specs.Private.Ready.{flags_of};

    // As the variables of the instances stand, which are the plant's.
    fn read_each(instances: &Instances, plant: &Plant, ticks: &mut Ticks) -> Singles
        requires { AreInstancesOf plant.now instances.now }
        ensures len { length (flags_of result) ≡ length plant.now.tasks }
        ensures few { length plant.now.tasks ≤ TASKS }
        ensures maybe { result.maybe ≡ true }
        ensures value { (state : PlantState) → InstancesAgree plant.now instances.now state →
            flags_of result ≡ singles_in plant.now state.changes }
        ensures ticks { Within (length plant.now.tasks) ticks.old ticks.new }
    {
        let count = plant.tasks().len();
        let mut flags = [false; TASKS];
        instances.read_singles(plant, &mut flags[..count], ticks);
        Singles {
            flags,
            count,
            maybe: true,
        }
    }

    /// As the variables of the instances stand, which are the plant's. `maybe` is FALSE only where no task has a SINGLE; then
    /// no variable is read.
    pub fn read(instances: &Instances, plant: &Plant, maybe: bool, ticks: &mut Ticks) -> Singles
        requires sizes { AreInstancesOf plant.now instances.now }
        requires maybe { maybe ≡ false → HaveNoSingle plant.now.tasks }
        ensures len { length (flags_of result) ≡ length plant.now.tasks }
        ensures few { length plant.now.tasks ≤ TASKS }
        ensures none { result.maybe ≡ false → HaveNoSingle plant.now.tasks }
        ensures value { (state : PlantState) → InstancesAgree plant.now instances.now state →
            flags_of result ≡ singles_in plant.now state.changes }
        ensures ticks { Within (length plant.now.tasks) ticks.old ticks.new }
    {
        if maybe {
            return Singles::read_each(instances, plant, ticks);
        }
        Singles {
            flags: [false; TASKS],
            count: plant.tasks().len(),
            maybe: false,
        }
    }

    /// Whether one may read TRUE.
    pub fn maybe_some(&self) -> bool
        ensures { result ≡ self.now.maybe }
    {
        self.maybe
    }

    /// One flag for each task.
    pub fn as_slice(&self) -> &[bool]
        ensures { result.now ≡ flags_of self.now }
    {
        &self.flags[..self.count]
    }
}
