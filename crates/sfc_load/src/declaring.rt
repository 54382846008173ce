//! The global variables, the tasks and the program types of a text, in the order of the checks (2.4.3, 2.5.3, 2.7.2).

ghost use Rattle.std.specs.Prelude.{IfErr, IfOk};
ghost use Rattle.sfc_text.specs.Trees.{source_of};
ghost use Rattle.sfc_program.specs.sfc_variables.Checks.{Fails};
ghost use Rattle.sfc_load.specs.Built.{source_check};
ghost use Rattle.sfc_load.specs.Assembly.Declared.{AreDeclared};

use crate::programs::load_programs;
use crate::sfc_check::placed_error::PlacedLoadError;
use crate::sfc_variables::globals::load_globals;
use crate::tasks::load_tasks;
use sfc_base::items::Items;
use sfc_plant::declarations::Declarations;
use sfc_text::tree::Source;
use std::alloc::Global;

/// The declarations of a text, or its first fault, where that is in one of them.
pub(crate) fn load_declarations(
    alloc: Global,
    source: &Source,
) -> Result<Declarations, PlacedLoadError>
    ensures loads { IfOk result (AreDeclared (source_of source.now)) }
    ensures refused { IfErr result (λ fault. Fails fault (source_check (source_of source.now))) }
{
    let configuration = &source.configuration;
    let globals = load_globals(alloc, configuration.globals.as_slice())?;
    let (tasks, task_names) = load_tasks(alloc, configuration.tasks.as_slice(), &globals)?;
    let (types, type_names) = load_programs(alloc, source.programs.as_slice(), &globals)?;
    Ok(Declarations {
        globals,
        tasks: Items::from_vec(tasks),
        task_names,
        types: Items::from_vec(types),
        type_names,
    })
}
