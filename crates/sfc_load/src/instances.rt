//! Program instances (2.7.2).

ghost use Rattle.std.specs.Prelude.{◌≡◌, ◌≤◌, ◌++◌, ◌∷◌, [], length, map, OnOk, IfOk};
ghost use Rattle.sfc_program.specs.sfc_variables.Checks.{Loads, in_turn};
ghost use Rattle.sfc_load.specs.Loading as loading;
ghost use Rattle.sfc_load.specs.Loading.{instance_name, instance_check, instances_check};
ghost use Rattle.sfc_load.specs.Built.{instance_of};

use crate::sfc_check::placed_error::PlacedLoadError;
use sfc_base::ids::{TaskId, TypeId};
use sfc_base::limits::{INSTANCES, TASKS};
use sfc_base::name::Name;
use sfc_events::load_error::{Limit, LoadError};
use sfc_plant::instance::Instance;
use sfc_plant::name_table::NameTable;
use sfc_text::tree;
use sfc_tokens::placed::Placed;
use sfc_tokens::span::{NOWHERE, Span};
use std::alloc::Global;

// The number of a task, if one is named that is there.
fn task_number(name: &Option<Placed<Name>>, tasks: &NameTable) -> Option<usize>
    ensures { result ≡ loading.task_number tasks.now name.now }
{
    match name {
        None => None,
        Some(name) => tasks.find(name.spelling()),
    }
}

// Where an instance names its task; its own name where it names none.
fn task_place(instance: &tree::Instance) -> Span {
    match &instance.task {
        Some(task) => task.span(),
        None => instance.name.span(),
    }
}

fn load_instance(
    alloc: Global,
    instance: &Placed<tree::Instance>,
    tasks: &NameTable,
    types: &NameTable,
    names: &mut NameTable,
) -> Result<Instance, PlacedLoadError>
    requires { length tasks.now ≤ TASKS }
    ensures loads { Loads (λ loaded. loaded) result (instance_check tasks.now types.now names.old instance.now) (instance_of tasks.now types.now instance.now) }
    ensures named { OnOk result (names.new ≡ names.old ++ instance.now.name ∷ []) }
{
    let written = instance.value();
    if !names.add(alloc, written.name.spelling())? {
        let place = written.name.span();
        return Err(PlacedLoadError::new(LoadError::Duplicate, place));
    }
    let Some(task) = task_number(&written.task, tasks) else {
        return Err(PlacedLoadError::new(LoadError::NoTask, task_place(written)));
    };
    let Some(program) = types.find(written.program.spelling()) else {
        let place = written.program.span();
        return Err(PlacedLoadError::new(LoadError::UnknownType, place));
    };
    Ok(Instance {
        name: written.name.copy(alloc)?,
        task: TaskId(task as u8),
        program: TypeId(program),
    })
}

// Each instance in turn, and the table of their names.
fn load_each(
    alloc: Global,
    instances: &[Placed<tree::Instance>],
    tasks: &NameTable,
    types: &NameTable,
) -> Result<(Vec<Instance>, NameTable), PlacedLoadError>
    requires { length tasks.now ≤ TASKS }
    ensures loads { Loads (λ loaded. loaded.0.items) result
        (in_turn instance_name (instance_check tasks.now types.now) [] instances.now)
        (map (instance_of tasks.now types.now) instances.now) }
    ensures named { IfOk result (λ loaded. loaded.1 ≡ map instance_name instances.now) }
{
    let mut loaded = Vec::new(alloc);
    let mut names = NameTable::new(alloc);
    let mut rest = instances;
    'instances: while let Some((instance, after)) = rest.split_first() {
        let instance = load_instance(alloc, instance, tasks, types, &mut names)?;
        loaded.push(instance)?;
        rest = after;
    }
    Ok((loaded, names))
}

// The name of the instance behind so many others.
fn place_of_instance(instances: &[Placed<tree::Instance>], others: usize) -> Span {
    match instances.get(others) {
        Some(instance) => instance.value().name.span(),
        None => NOWHERE,
    }
}

/// At most 64 instances, and the table of their names.
#[tactic(auto, unfolding(crate::specs::Loading::instances_check))]
pub(crate) fn load_instances(
    alloc: Global,
    instances: &[Placed<tree::Instance>],
    tasks: &NameTable,
    types: &NameTable,
) -> Result<(Vec<Instance>, NameTable), PlacedLoadError>
    requires { length tasks.now ≤ TASKS }
    ensures loads { Loads (λ loaded. loaded.0.items) result
        (instances_check tasks.now types.now instances.now)
        (map (instance_of tasks.now types.now) instances.now) }
    ensures named { IfOk result (λ loaded. loaded.1 ≡ map instance_name instances.now) }
{
    if instances.len() > INSTANCES {
        let place = place_of_instance(instances, INSTANCES);
        return Err(PlacedLoadError::new(LoadError::Limit(Limit::Instances), place));
    }
    load_each(alloc, instances, tasks, types)
}
