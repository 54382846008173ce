//! The table of conditions that a debugger is handed.

ghost use Rattle.std.specs.Prelude.{◌≡◌};
ghost use Rattle.sfc_load.specs.sfc_check.Checking.{checked};
ghost use Rattle.sfc_text.specs.Trees.{tree_of};
ghost use Rattle.sfc_script.specs.Conditions as conditions;
ghost use Rattle.sfc_script.specs.Conditions.{Gives, conditions_from, with_place};
ghost use Rattle.sfc_script.specs.declared.condition_error.ConditionError.{ConditionError};

use crate::condition_error::ConditionError;
use crate::sfc_check::check::check;
use crate::sfc_check::type_error::TypeError;
use sfc_base::ids::ProgId;
use sfc_base::var_type::VarType;
use sfc_debug::break_condition::BreakCondition;
use sfc_load::scope::scope_of;
use sfc_plant::plant::Plant;
use sfc_plant::typed::Condition;
use sfc_text::expression::Expression;
use std::alloc::Global;

// The entry at this place with this fault of its types.
fn wrong(place: usize, error: TypeError) -> ConditionError
    ensures { result ≡ with_place place error }
{
    match error {
        TypeError::Memory => ConditionError::Memory,
        error => ConditionError::Wrong(place, error),
    }
}

/// The condition that an expression is: typed as the condition of a transition of this program instance is (2.6.3, 3.3), so that
/// steps, locals and then globals of the instance have their names in it. `UnknownProgram` where the instance isn't one of the plant's
/// and `Wrong` where it is no BOOL expression there are told with the place, which is that of an entry of a table; `Memory` where
/// memory was refused.
pub fn condition_of(
    alloc: Global,
    plant: &Plant,
    place: usize,
    program: ProgId,
    expression: &Expression,
) -> Result<BreakCondition, ConditionError>
    ensures { Gives (λ condition. condition) result (conditions.condition_of plant.now place program (tree_of expression.now)) }
{
    if program.0 as usize >= plant.instances().len() {
        return Err(ConditionError::UnknownProgram(place));
    }
    match check(alloc, expression, &scope_of(plant, program), VarType::Bool) {
        Ok(expr) => Ok(BreakCondition {
            program,
            condition: Condition::new(expr),
        }),
        Err(fault) => Err(wrong(place, fault.error())),
    }
}

/// The table of conditions that a text is: of each entry the BOOL expression, typed as the condition of a transition of its program
/// instance is (2.6.3, 3.3): steps, locals and then globals of that instance have their names in it. A `CondId` is the place of an
/// entry, from 0, and names the first 65,535. Else the first entry that is no such condition is told, or want of memory.
pub fn conditions_of(
    alloc: Global,
    plant: &Plant,
    written: &[(ProgId, Expression)],
) -> Result<Vec<BreakCondition>, ConditionError>
    ensures { Gives (λ table. table.items) result (conditions_from plant.now 0 written.now) }
{
    let mut table = Vec::with_capacity(alloc, written.len())?;
    let mut rest = written;
    'entries: while let Some((entry, after)) = rest.split_first() {
        let (program, expression) = entry;
        table.push(condition_of(alloc, plant, table.len(), *program, expression)?)?;
        rest = after;
    }
    Ok(table)
}
