//! The conditions of breakpoints, by their texts.

ghost use Rattle.std.specs.Prelude.{◌≡◌};
ghost use Rattle.sfc_script.specs.ConditionAnswers as answers;
ghost use Rattle.sfc_script.specs.Private.Reading.{as_conditional};

use crate::command::Conditional;
use crate::condition_error::ConditionError;
use crate::conditions::condition_of;
use crate::script::ScriptError;
use sfc_debug::break_condition::BreakCondition;
use sfc_events::read_error::ReadErrorKind;
use sfc_plant::plant::Plant;
use sfc_text::read_expr::read_expr;
use std::alloc::Global;

// The refusal of a text that is no expression, which stands at this line.
fn refusal(kind: ReadErrorKind, number: usize) -> ScriptError
    ensures { result ≡ answers.refusal number kind }
{
    match kind {
        ReadErrorKind::Memory => ScriptError::Memory,
        _ => ScriptError::Faulty(number),
    }
}

// What a condition that was checked adds, which stands at this line.
fn added(
    checked: Result<BreakCondition, ConditionError>,
    number: usize,
) -> Result<Option<BreakCondition>, ScriptError>
    ensures { result ≡ answers.added number checked }
{
    match checked {
        Ok(condition) => Ok(Some(condition)),
        Err(ConditionError::UnknownProgram(_)) => Ok(None),
        Err(ConditionError::Wrong(_, _)) => Err(ScriptError::Faulty(number)),
        Err(ConditionError::Memory) => Err(ScriptError::Memory),
    }
}

/// The condition of a breakpoint, which stands at this line of a script, behind others with so many conditions. None
/// where its program instance isn't there, though its text can be read. `Faulty` tells the line where the text can't be
/// read, or is no BOOL expression of the program instance; `Memory` that memory was refused.
pub fn read_condition(
    alloc: Global,
    plant: &Plant,
    conditions: usize,
    conditional: Conditional<'_>,
    number: usize,
) -> Result<Option<BreakCondition>, ScriptError>
    ensures { answers.ReadsCondition plant.now conditions (as_conditional conditional.entry) number result }
{
    let expression = match read_expr(alloc, conditional.text) {
        Ok(expression) => expression,
        Err(error) => return Err(refusal(error.kind, number)),
    };
    let program = conditional.place.program;
    added(
        condition_of(alloc, plant, conditions, program, &expression),
        number,
    )
}
