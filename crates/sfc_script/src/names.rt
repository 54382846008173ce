//! Names of tasks, of program instances and of variables.

ghost use Rattle.std.specs.Prelude.{◌≡◌};
ghost use Rattle.sfc_script.specs.Names as names;

use sfc_base::ids::{ProgId, TaskId, VarId};
use sfc_base::var_type::VarType;
use sfc_plant::plant::Plant;

/// The task with this name; else a number that no plant has.
pub fn task_of(plant: &Plant, word: &[u8]) -> TaskId
    ensures { result ≡ names.task_of plant.now word.now }
{
    plant.find_task(word).unwrap_or(TaskId(255))
}

/// The program instance with this name; else a number that no plant has.
pub fn program_of(plant: &Plant, word: &[u8]) -> ProgId
    ensures { result ≡ names.program_of plant.now word.now }
{
    plant.find_instance(word).unwrap_or(ProgId(255))
}

/// The variable with this name: `NAME` for a global, `INST.NAME` for a local of a program instance; else a number that
/// no plant has.
pub fn variable_of(plant: &Plant, word: &[u8]) -> VarId
    ensures { result ≡ names.variable_of plant.now word.now }
{
    plant.find_variable(word).unwrap_or(VarId(65535))
}

/// The type of a variable, if there is one with this number.
pub fn type_of(plant: &Plant, id: VarId) -> Option<VarType>
    ensures { result ≡ names.type_of plant.now id }
{
    let variable = plant.variable(id)?;
    Some(variable.var_type)
}
