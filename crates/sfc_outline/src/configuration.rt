//! The configuration.

use crate::draft::Draft;
use crate::item::Item;
use crate::spaces::Shared;
use crate::variables::outline_globals;
use sfc_text::tree::{Instance, Source, Task};
use sfc_tokens::placed::Placed;
use std::alloc::AllocError;

// Puts the tasks last.
fn outline_tasks(
    tasks: &[Placed<Task>],
    shared: &Shared,
    draft: &mut Draft,
) -> Result<(), AllocError> {
    let mut task = 0usize;
    for written in tasks {
        let span = written.span();
        let written = written.value();
        draft.declare(Item::Task { task }, span, &written.name)?;
        if let Some(single) = &written.single {
            draft.mention(single, shared.globals.find(single))?;
        }
        task = task.saturating_add(1);
    }
    Ok(())
}

// Puts the program instances last.
fn outline_instances(
    instances: &[Placed<Instance>],
    shared: &Shared,
    draft: &mut Draft,
) -> Result<(), AllocError> {
    let mut instance = 0usize;
    for written in instances {
        let span = written.span();
        let written = written.value();
        draft.declare(Item::Instance { instance }, span, &written.name)?;
        if let Some(task) = &written.task {
            draft.mention(task, shared.tasks.find(task))?;
        }
        draft.mention(&written.program, shared.types.find(&written.program))?;
        instance = instance.saturating_add(1);
    }
    Ok(())
}

/// Puts the configuration of a text last. The one error is that memory was refused.
pub fn outline_configuration(
    source: &Source,
    shared: &Shared,
    draft: &mut Draft,
) -> Result<(), AllocError> {
    let configuration = &source.configuration;
    let span = source.configuration_span;
    draft.declare(Item::Configuration, span, &configuration.name)?;
    outline_globals(configuration.globals.as_slice(), draft)?;
    outline_tasks(configuration.tasks.as_slice(), shared, draft)?;
    outline_instances(configuration.instances.as_slice(), shared, draft)
}
