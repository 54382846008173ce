//! Tasks (2.7.2).

ghost use Rattle.std.specs.Prelude.{◌≡◌, ◌≤◌, ◌++◌, ◌∷◌, [], length, map, OnOk, IfOk};
ghost use Rattle.std.specs.Option.{option_map};
ghost use Rattle.sfc_program.specs.sfc_variables.Checks.{Loads, in_turn};
ghost use Rattle.sfc_program.specs.sfc_variables.Own.{global_id};
ghost use Rattle.sfc_load.specs.Loading as loading;
ghost use Rattle.sfc_load.specs.Loading.{task_name, task_check, task_names, tasks_check};
ghost use Rattle.sfc_load.specs.Built.{task_of};

use crate::sfc_check::detail::Detail;
use crate::sfc_check::literal::check_literal;
use crate::sfc_check::placed_error::{PlacedLoadError, loaded_at};
use sfc_base::limits::TASKS;
use sfc_base::name::Name;
use sfc_base::references::GlobalId;
use sfc_base::time_value::TimeValue;
use sfc_base::value::Value;
use sfc_base::var_type::VarType;
use sfc_events::load_error::{Limit, LoadError};
use sfc_plant::name_table::NameTable;
use sfc_plant::task::Task;
use sfc_plant::variable_table::VariableTable;
use sfc_text::tree::{self, Literal};
use sfc_tokens::placed::Placed;
use sfc_tokens::span::{NOWHERE, Span};
use std::alloc::Global;

// The BOOL variable that SINGLE names, if it is there.
fn load_single(
    single: &Option<Placed<Name>>,
    globals: &VariableTable,
) -> Result<Option<GlobalId>, PlacedLoadError>
    ensures { Loads (λ id. id) result (loading.single_check globals.now single.now) (option_map (global_id globals.now) single.now) }
{
    let Some(name) = single else {
        return Ok(None);
    };
    let Some(place) = globals.find(name.spelling()) else {
        return Err(PlacedLoadError::new(LoadError::Unknown, name.span()));
    };
    match globals.as_slice().get(place) {
        Some(variable) if variable.var_type == VarType::Bool => Ok(Some(GlobalId(place))),
        Some(variable) => {
            let detail = Detail::mismatch(VarType::Bool, variable.var_type);
            Err(PlacedLoadError::told(LoadError::NotBool, name.span(), detail))
        }
        None => Err(PlacedLoadError::new(LoadError::Unknown, name.span())),
    }
}

// The interval in microseconds, which is not negative.
fn load_interval(interval: TimeValue) -> Result<i64, LoadError>
    ensures { Loads (λ t. t) result (loading.interval_check interval) interval }
{
    if let Err(fault) = check_literal(Literal::Time(interval), VarType::Time) {
        return Err(LoadError::from(fault));
    }
    let micros = interval.micros();
    if micros < 0 {
        return Err(LoadError::LiteralRange);
    }
    Ok(micros)
}

// A task, and its place in the table of names.
fn load_task(
    alloc: Global,
    task: &Placed<tree::Task>,
    globals: &VariableTable,
    names: &mut NameTable,
) -> Result<Task, PlacedLoadError>
    ensures loads { Loads (λ loaded. loaded) result (task_check globals.now names.old task.now) (task_of globals.now task.now) }
    ensures named { OnOk result (names.new ≡ names.old ++ task.now.name ∷ []) }
{
    let written = task.value();
    if !names.add(alloc, written.name.spelling())? {
        let place = written.name.span();
        return Err(PlacedLoadError::new(LoadError::Duplicate, place));
    }
    let single = load_single(&written.single, globals)?;
    let interval = load_interval(*written.interval.value());
    let interval = loaded_at(interval, written.interval.span())?;
    Ok(Task {
        name: written.name.copy(alloc)?,
        single,
        interval,
        priority: written.priority,
    })
}

// Each task in turn, and the table of their names.
fn load_each(
    alloc: Global,
    tasks: &[Placed<tree::Task>],
    globals: &VariableTable,
) -> Result<(Vec<Task>, NameTable), PlacedLoadError>
    ensures loads { Loads (λ loaded. loaded.0.items) result
        (in_turn task_name (task_check globals.now) [] tasks.now) (map (task_of globals.now) tasks.now) }
    ensures named { IfOk result (λ loaded. loaded.1 ≡ task_names tasks.now) }
{
    let mut loaded = Vec::new(alloc);
    let mut names = NameTable::new(alloc);
    let mut rest = tasks;
    'tasks: while let Some((task, after)) = rest.split_first() {
        let task = load_task(alloc, task, globals, &mut names)?;
        loaded.push(task)?;
        rest = after;
    }
    Ok((loaded, names))
}

// The name of the task behind so many others.
fn place_of_task(tasks: &[Placed<tree::Task>], others: usize) -> Span {
    match tasks.get(others) {
        Some(task) => task.value().name.span(),
        None => NOWHERE,
    }
}

/// At most 16 tasks, and the table of their names.
#[tactic(auto, unfolding(crate::specs::Loading::tasks_check))]
pub(crate) fn load_tasks(
    alloc: Global,
    tasks: &[Placed<tree::Task>],
    globals: &VariableTable,
) -> Result<(Vec<Task>, NameTable), PlacedLoadError>
    ensures loads { Loads (λ loaded. loaded.0.items) result (tasks_check globals.now tasks.now) (map (task_of globals.now) tasks.now) }
    ensures named { IfOk result (λ loaded. loaded.1 ≡ task_names tasks.now) }
    ensures few { IfOk result (λ loaded. length loaded.1 ≤ TASKS) }
{
    if tasks.len() > TASKS {
        let place = place_of_task(tasks, TASKS);
        return Err(PlacedLoadError::new(LoadError::Limit(Limit::Tasks), place));
    }
    load_each(alloc, tasks, globals)
}
