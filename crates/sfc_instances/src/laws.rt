//! What the definitions mean: each law is a function with an empty body, whose contract is the law.

ghost use Rattle.std.specs.Prelude.{◌≡◌, ◌≢◌, ◌<◌, ◌≤◌, ◌↔◌, ℕ, ℤ, length, true, is_some, slice_get, Some, take};
ghost use Rattle.std.specs.Int.{bit_at};
ghost use Rattle.sfc_plant.specs.Sound.{IsPlant};
ghost use Rattle.sfc_instance.specs.sfc_image.Changes.{Change};
ghost use Rattle.sfc_instance.specs.declared.scan_end.ScanEnd.{ScanEnd};
ghost use Rattle.sfc_instances.specs.declared.instances.Instances.{Instances};
ghost use Rattle.sfc_instances.specs.PlantState.{with_change};
ghost use Rattle.sfc_instances.specs.Ends.{bits_of};
ghost use Rattle.sfc_instances.specs.Singles.{singles_in};
ghost use Rattle.sfc_instances.specs.Agreement.{AreInstancesOf, InstancesAgree};
ghost use Rattle.sfc_instances.specs.Past.{instances_past, past_in};
ghost use Rattle.sfc_base.specs.declared.ids.ProgId.{ProgId};
ghost use Rattle.sfc_base.specs.declared.ids.TaskId.{TaskId};
ghost use Rattle.sfc_plant.specs.declared.instance.Instance.{Instance};
ghost use Rattle.sfc_plant.specs.Plants.{PlantData};
ghost use Rattle.sfc_instance.specs.declared.scan_end.ScanEnd.TheVariants.{Faulted, Skipped};
ghost use Rattle.sfc_instance.specs.Life.{fresh};
ghost use Rattle.sfc_instance.specs.sfc_image.Types.{GivesType};
ghost use Rattle.sfc_instance.specs.Types.{IsInstant};
ghost use Rattle.sfc_instances.specs.PlantState.{PlantState, opened, after_program, after_reset, after_task};
ghost use Rattle.sfc_instances.specs.PlantState.{program_scan};
ghost use Rattle.sfc_instances.specs.Types.{IsTypedPlant, IsTypedState};
ghost use Rattle.sfc_instances.specs.Places.{ArePlaced};

/// A scan of one instance leaves how each other stands (2.6.2).
pub fn programs()
    ensures { (plant : PlantData) (p : ProgId) (t : ℤ) (state : PlantState) (k : ℕ) → k ≢ p.0 →
        (after_program p (program_scan plant t p.0 state) state).instance_state k ≡ state.instance_state k }
{}

/// A scan of a task leaves how the instances of other tasks stand (2.7.2).
pub fn tasks()
    ensures { (plant : PlantData) (task : TaskId) (t : ℤ) (state : PlantState) (k : ℕ) (instance : Instance) →
        slice_get plant.instances k ≡ Some instance → instance.task.0 ≢ task.0 →
        (after_task plant task t 0 plant.instances state).instance_state k ≡ state.instance_state k }
{}

/// A scan that a fault ends changes nothing but its instance's fault, and where it is: the variables and the life of the instance stay
/// (our choice).
pub fn faults()
    ensures changes { (plant : PlantData) (t : ℤ) (k : ℕ) (state : PlantState) → (program_scan plant t k state).scan_end ≡ Faulted →
        (program_scan plant t k state).changes ≡ state.changes }
    ensures life { (plant : PlantData) (t : ℤ) (k : ℕ) (state : PlantState) → (program_scan plant t k state).scan_end ≡ Faulted →
        (program_scan plant t k state).instance_state.life ≡ (state.instance_state k).life }
    ensures fault { (plant : PlantData) (t : ℤ) (k : ℕ) (state : PlantState) → (program_scan plant t k state).scan_end ≡ Faulted →
        is_some (program_scan plant t k state).instance_state.fault ≡ true }
    ensures place { (plant : PlantData) (t : ℤ) (k : ℕ) (state : PlantState) → (program_scan plant t k state).scan_end ≡ Faulted →
        is_some (program_scan plant t k state).instance_state.place ≡ true }
{}

/// An instance is passed over exactly where a fault stands, and then nothing changes (our choice).
pub fn skips()
    ensures exactly { (plant : PlantData) (t : ℤ) (k : ℕ) (state : PlantState) →
        ((program_scan plant t k state).scan_end ≡ Skipped) ↔ (is_some (state.instance_state k).fault ≡ true) }
    ensures changes { (plant : PlantData) (t : ℤ) (k : ℕ) (state : PlantState) → (program_scan plant t k state).scan_end ≡ Skipped →
        (program_scan plant t k state).changes ≡ state.changes }
    ensures instance_state { (plant : PlantData) (t : ℤ) (k : ℕ) (state : PlantState) → (program_scan plant t k state).scan_end ≡ Skipped →
        (program_scan plant t k state).instance_state ≡ state.instance_state k }
{}

/// After a reset the next scan of the instance is a first scan, and each other instance stands as it did (2.6.2).
pub fn resets()
    ensures anew { (p : ProgId) (state : PlantState) → (after_reset p state).instance_state p.0 ≡ fresh }
    ensures others { (p : ProgId) (state : PlantState) (k : ℕ) → k ≢ p.0 →
        (after_reset p state).instance_state k ≡ state.instance_state k }
{}

/// Of the answer to a scan of a task the bit of an instance is set exactly where the instance is the task's, and its scan, over
/// what those before it in the text left, ended so (2.7.2); no other bit is set.
pub fn bits()
    ensures instances { (how : ScanEnd) (plant : PlantData) (task : TaskId) (t : ℤ) (state : PlantState) (k : ℕ) (instance : Instance) →
        slice_get plant.instances k ≡ Some instance →
        (bit_at (bits_of how plant task t 0 plant.instances state) k ≡ 1)
        ↔ ((instance.task.0 ≡ task.0)
        × ((program_scan plant t k (after_task plant task t 0 (take k plant.instances) state)).scan_end ≡ how)) }
    ensures others { (how : ScanEnd) (plant : PlantData) (task : TaskId) (t : ℤ) (state : PlantState) (k : ℕ) →
        length plant.instances ≤ k → bit_at (bits_of how plant task t 0 plant.instances state) k ≡ 0 }
{}

/// Scans of a task, changes that give a variable a value of its type, and resets give variables values of their types,
/// where each begins with one and the actions of the instances have types (2.4.2, 3.3.2).
pub fn types()
    ensures opened { (plant : PlantData) → IsTypedState plant opened }
    ensures task { (plant : PlantData) (task : TaskId) (t : ℤ) (state : PlantState) → IsTypedPlant plant → IsInstant t →
        IsTypedState plant state → IsTypedState plant (after_task plant task t 0 plant.instances state) }
    ensures change { (plant : PlantData) (change : Change) (state : PlantState) → GivesType plant change →
        IsTypedState plant state → IsTypedState plant (with_change change state) }
    ensures reset { (plant : PlantData) (p : ProgId) (state : PlantState) → IsTypedState plant state →
        IsTypedState plant (after_reset p state) }
{}

/// Of each instance a place stands exactly where a fault does: at the opening, and after scans of a task, changes and resets.
pub fn places()
    ensures opened { ArePlaced opened }
    ensures task { (plant : PlantData) (task : TaskId) (t : ℤ) (state : PlantState) → ArePlaced state →
        ArePlaced (after_task plant task t 0 plant.instances state) }
    ensures change { (change : Change) (state : PlantState) → ArePlaced state → ArePlaced (with_change change state) }
    ensures reset { (p : ProgId) (state : PlantState) → ArePlaced state → ArePlaced (after_reset p state) }
{}

/// What is kept is the past of the state: all that later answers need, and for all states of this past the same.
pub fn kept_past()
    ensures kept { (plant : PlantData) (instances : Instances) (state : PlantState) → AreInstancesOf plant instances →
        InstancesAgree plant instances state → past_in plant instances ≡ instances_past plant state }
    ensures same { (plant : PlantData) (instances : Instances) (state other : PlantState) → AreInstancesOf plant instances →
        InstancesAgree plant instances state → instances_past plant state ≡ instances_past plant other →
        InstancesAgree plant instances other }
{}

/// What came before may be replaced by its past: over states of the same past a scan of a task, a reset and a change
/// leave states of the same past.
pub fn cut()
    ensures task { (plant : PlantData) (task : TaskId) (t : ℤ) (state other : PlantState) → IsPlant plant →
        instances_past plant state ≡ instances_past plant other →
        instances_past plant (after_task plant task t 0 plant.instances state)
        ≡ instances_past plant (after_task plant task t 0 plant.instances other) }
    ensures reset { (plant : PlantData) (p : ProgId) (state other : PlantState) →
        instances_past plant state ≡ instances_past plant other →
        instances_past plant (after_reset p state) ≡ instances_past plant (after_reset p other) }
    ensures change { (plant : PlantData) (change : Change) (state other : PlantState) →
        instances_past plant state ≡ instances_past plant other →
        instances_past plant (with_change change state) ≡ instances_past plant (with_change change other) }
{}

/// The past gives how each instance's scan ends, and what the SINGLE of each task reads.
pub fn past_answers()
    ensures bits { (how : ScanEnd) (plant : PlantData) (task : TaskId) (t : ℤ) (state other : PlantState) → IsPlant plant →
        instances_past plant state ≡ instances_past plant other →
        bits_of how plant task t 0 plant.instances state ≡ bits_of how plant task t 0 plant.instances other }
    ensures singles { (plant : PlantData) (state other : PlantState) → IsPlant plant →
        instances_past plant state ≡ instances_past plant other →
        singles_in plant state.changes ≡ singles_in plant other.changes }
{}
