//! Why an event is refused.

ghost use Rattle.std.specs.Prelude.{◌≡◌, ◌<◌, ◌≤ℤ◌, ◌^◌, pos, length, None};
ghost use Rattle.sfc_instances.specs.sfc_image.Answers as answers;
ghost use Rattle.sfc_instances.specs.Agreement.{InstancesAgree};
ghost use Rattle.sfc_instances.specs.PlantState.{PlantState};
ghost use Rattle.sfc_core.specs.Verdict as verdict;
ghost use Rattle.sfc_core.specs.Private.Naming.{IsKnown};

use crate::inputs::is_input;
use crate::sfc_image::image_error::ImageError;
use sfc_base::ids::{ProgId, TaskId, VarId};
use sfc_base::value::Value;
use sfc_events::event::Event;
use sfc_events::refusal::Refusal;
use sfc_instances::instances::Instances;
use sfc_plant::plant::Plant;

/// The last instant.
const LATEST: i64 = 1 << 62;

/// By the instant of an event, after one at `last`.
pub fn refuse_instant(last: i64, t: i64) -> Option<Refusal>
    ensures value { result ≡ verdict.instant_refusal last t }
    ensures low { result ≡ None → pos 0 ≤ℤ t }
    ensures high { result ≡ None → t ≤ℤ pos (2 ^ 62) }
{
    if t < 0 || t > LATEST {
        Some(Refusal::InstantRange)
    } else if t < last {
        Some(Refusal::ClockBack)
    } else {
        None
    }
}

// That there is no such task.
fn refuse_task(plant: &Plant, task: TaskId) -> Option<Refusal>
    ensures value { result ≡ verdict.task_refusal plant.now task }
    ensures known { result ≡ None → task.0 < length plant.now.tasks }
{
    if (task.0 as usize) < plant.tasks().len() {
        None
    } else {
        Some(Refusal::UnknownTask)
    }
}

// That there is no such program instance.
fn refuse_program(plant: &Plant, instance: ProgId) -> Option<Refusal>
    ensures value { result ≡ verdict.program_refusal plant.now instance }
    ensures known { result ≡ None → instance.0 < length plant.now.instances }
{
    if (instance.0 as usize) < plant.instances().len() {
        None
    } else {
        Some(Refusal::UnknownProgram)
    }
}

// The refusal for a fault of the variables.
fn refusal_of(fault: Option<ImageError>) -> Option<Refusal>
    ensures { result ≡ verdict.of_image fault }
{
    match fault {
        Some(ImageError::UnknownVar) => Some(Refusal::UnknownVar),
        Some(ImageError::ValueType) => Some(Refusal::ValueType),
        Some(ImageError::NotForced) => Some(Refusal::NotForced),
        None => None,
    }
}

// That the variable is not there, the value is of another type, or the variable is no input.
fn refuse_input(plant: &Plant, instances: &Instances, id: VarId, value: Value) -> Option<Refusal>
    ensures { (state : PlantState) → InstancesAgree plant.now instances.now state →
        result ≡ verdict.or_then (verdict.of_image (answers.value_fault plant.now id value)) (verdict.input_refusal plant.now id) }
{
    match refusal_of(instances.image().value_fault(id, value)) {
        Some(refusal) => Some(refusal),
        None => {
            if is_input(plant, id) {
                None
            } else {
                Some(Refusal::NotInput)
            }
        }
    }
}

/// By what the event names.
#[inline(always)]
pub fn refuse_event(plant: &Plant, instances: &Instances, event: Event) -> Option<Refusal>
    ensures value { (state : PlantState) → InstancesAgree plant.now instances.now state →
        result ≡ verdict.event_refusal plant.now state.changes event }
    ensures known { result ≡ None → IsKnown plant.now event }
{
    match event {
        Event::Scan(task) => refuse_task(plant, task),
        Event::ForcedScan(task) => refuse_task(plant, task),
        Event::Input(id, value) => refuse_input(plant, instances, id, value),
        Event::Force(id, value) => refusal_of(instances.image().value_fault(id, value)),
        Event::Release(id) => refusal_of(instances.image().release_fault(id)),
        Event::Reset(instance) => refuse_program(plant, instance),
    }
}
