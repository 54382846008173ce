//! When programs run at all (2.7.2).

use crate::finding::Findings;
use crate::kind::Kind;
use sfc_outline::item::Item;
use sfc_plant::plant::Plant;
use sfc_plant::task::Task;
use std::alloc::AllocError;

// Whether a program instance stands in the task of this number.
fn has_program(plant: &Plant, task: usize) -> bool {
    plant
        .instances()
        .iter()
        .any(|instance| instance.task.0 as usize == task)
}

// Whether one task, by its number, goes before another one: by its priority, and of alike ones by the text.
fn goes_first(one: (usize, &Task), other: (usize, &Task)) -> bool {
    let ((place, task), (second, other)) = (one, other);
    task.priority < other.priority || task.priority == other.priority && place < second
}

// The name of a task with programs that goes before this one and comes as often, or more often.
fn starving(plant: &Plant, own: usize, task: &Task) -> Option<usize> {
    for (place, other) in plant.tasks().iter().enumerate() {
        let is_as_often = other.interval > 0 && other.interval == task.interval;
        if is_as_often && has_program(plant, place) && goes_first((place, other), (own, task)) {
            return Some(place);
        }
    }
    None
}

/// Tells the tasks that never run, that run nothing, and that others may hold up for ever. The one error is that memory was refused.
pub fn tell_tasks(findings: &mut Findings, plant: &Plant) -> Result<(), AllocError> {
    for (place, task) in plant.tasks().iter().enumerate() {
        let item = Item::Task { task: place };
        let name = task.name.spelling();
        if task.interval == 0 && task.single.is_none() {
            findings.tell(
                Kind::NeverRuns,
                item,
                &[
                    b"task ",
                    name,
                    b" has no INTERVAL and no SINGLE: it never runs",
                ],
            )?;
        } else if !has_program(plant, place) {
            findings.tell(Kind::NoProgram, item, &[b"task ", name, b" has no program"])?;
        } else if let Some(other) = starving(plant, place, task) {
            let first = match plant.tasks().get(other) {
                Some(other) => other.name.spelling(),
                None => b"",
            };
            findings.tell(
                Kind::Starved,
                item,
                &[
                    b"task ",
                    first,
                    b" goes before ",
                    name,
                    b" at the same INTERVAL: scans of it that take as long hold this one up for ever",
                ],
            )?;
        }
    }
    Ok(())
}
