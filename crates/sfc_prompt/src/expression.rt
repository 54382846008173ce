//! Conditions by their texts.

ghost use Rattle.std.specs.Prelude.{◌≢◌, OnOk, IfOk};
ghost use Rattle.sfc_prompt.specs.Conditions.{IsFound, added_by};
ghost use Rattle.sfc_prompt.specs.Notes.{Adds};
ghost use Rattle.sfc_asking.specs.sfc_script.Scripts.{ConditionReads};
ghost use Rattle.sfc_events.specs.declared.read_error.ReadErrorKind.TheVariants.{Memory};

use crate::sfc_check::type_error::TypeError;
use crate::sfc_debug::break_condition::BreakCondition;
use crate::sfc_script::condition_error::ConditionError;
use crate::sfc_script::conditions::condition_of;
use sfc_base::ids::ProgId;
use sfc_events::read_error::ReadErrorKind;
use sfc_page::append::{append, append_number};
use sfc_plant::plant::Plant;
use sfc_text::read_expr::read_expr;
use std::alloc::{AllocError, Global};

/// Why a text is no condition: the number and the name of what a chart with such a condition is refused for; or that of a command of
/// that program instance.
#[derive(Clone, Copy, Debug, PartialEq, Eq)]
pub struct Fault {
    /// The number.
    pub number: u8,
    /// The name.
    pub name: &'static str,
}

/// There is no such program instance.
pub const UNKNOWN_PROGRAM: Fault = Fault {
    number: 32,
    name: "UnknownProgram",
};

/// What a text is as a condition in a program instance.
pub enum Found {
    /// This condition.
    Condition(BreakCondition),
    /// It can be read, but there is no such program instance.
    NoProgram,
    /// No condition, for this.
    Faulty(Fault),
}

// The fault of a text that is no expression. The error is that memory was refused.
fn reading_fault(kind: ReadErrorKind) -> Result<Fault, AllocError>
    ensures { OnOk result (kind ≢ Memory) }
{
    match kind {
        ReadErrorKind::Memory => Err(AllocError),
        _ => Ok(Fault {
            number: kind.number(),
            name: kind.name(),
        }),
    }
}

// The fault of an expression that has no type. The error is that memory was refused.
fn type_fault(error: TypeError) -> Result<Fault, AllocError> {
    match error {
        TypeError::Unknown => Ok(Fault {
            number: 9,
            name: "Unknown",
        }),
        TypeError::WrongType => Ok(Fault {
            number: 10,
            name: "WrongType",
        }),
        TypeError::LiteralRange => Ok(Fault {
            number: 11,
            name: "LiteralRange",
        }),
        TypeError::NotAssignable => Ok(Fault {
            number: 12,
            name: "NotAssignable",
        }),
        TypeError::Memory => Err(AllocError),
    }
}

// What an expression is that was checked. The error is that memory was refused.
fn of_checked(checked: Result<BreakCondition, ConditionError>) -> Result<Found, AllocError>
    ensures { IfOk result (λ found. IsFound checked found) }
{
    match checked {
        Ok(condition) => Ok(Found::Condition(condition)),
        Err(ConditionError::UnknownProgram(_)) => Ok(Found::NoProgram),
        Err(ConditionError::Wrong(_, error)) => Ok(Found::Faulty(type_fault(error)?)),
        Err(ConditionError::Memory) => Err(AllocError),
    }
}

/// The condition that a text is in a program instance of the plant, as that of a transition of its program type (2.6.3, 3.3), or why it is
/// none. Where there is no such instance the text is read all the same. The error is that memory was refused.
pub fn read_condition(
    alloc: Global,
    plant: &Plant,
    program: ProgId,
    text: &[u8],
) -> Result<Found, AllocError>
    ensures { IfOk result (λ found. ConditionReads plant.now 0 program text.now (added_by found)) }
{
    match read_expr(alloc, text) {
        Ok(expression) => of_checked(condition_of(alloc, plant, 0, program, &expression)),
        Err(error) => Ok(Found::Faulty(reading_fault(error.kind)?)),
    }
}

/// Puts at the end why a text is no condition. The one error is that memory was refused.
pub fn append_fault(out: &mut Vec<u8>, fault: Fault) -> Result<(), AllocError>
    ensures { OnOk result (Adds out.old.items out.new.items) }
{
    append(out, b"; no condition: ")?;
    append_number(out, u64::from(fault.number))?;
    append(out, b" ")?;
    append(out, fault.name.as_bytes())?;
    append(out, b"\n")
}
