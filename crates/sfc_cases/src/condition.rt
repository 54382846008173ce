//! How the conditions of a test are read.

ghost use Rattle.std.specs.Prelude.{◌≡◌, None, Ok, Some, IfOk, MatchOption, Result, option_and_then};
ghost use Rattle.sfc_script.specs.Conditions.{ConditionFault, Gives};
ghost use Rattle.sfc_script.specs.Lines as script_lines;
ghost use Rattle.sfc_debug.specs.declared.break_condition.BreakCondition.{BreakCondition};
ghost use Rattle.sfc_base.specs.declared.ids.ProgId.{ProgId};
ghost use Rattle.sfc_events.specs.ReadErrors.{Read};
ghost use Rattle.sfc_plant.specs.Plants.{PlantData};
ghost use Rattle.sfc_text.specs.Reads.{AreOne};
ghost use Rattle.sfc_text.specs.Trees.{Tree, tree_of};
ghost use Rattle.sfc_tokens.specs.Texts.{FindsError};
ghost use Rattle.sfc_expr.specs.Trees.{expression_of};
ghost use Rattle.sfc_cases.specs.Conditions as conditions;
ghost use Rattle.sfc_cases.specs.Conditions.{IsReader, Reader};

use crate::joined::{Condition, Joint, Part};
use crate::words::{names_instance, split_joint};
use sfc_base::case::is_same_word;
use sfc_base::ids::ProgId;
use sfc_base::items::Items;
use sfc_base::references::Variable;
use sfc_debug::break_condition::BreakCondition;
use sfc_events::read_error::ReadErrorKind;
use sfc_expr::expr::Expr;
use sfc_plant::plant::Plant;
use sfc_script::condition_error::ConditionError;
use sfc_script::conditions::condition_of;
use sfc_script::split::first_word;
use sfc_text::expression::Expression;
use sfc_text::laws::one_expression_reading;
use sfc_text::read_expr::read_expr;
use std::alloc::{AllocError, Global};

/// The most joints of a condition.
const MOST_JOINTS: usize = 255;

/// A program instance, and what is said of it.
#[derive(Clone, Copy)]
pub struct Asked<'a> {
    pub program: ProgId,
    pub text: &'a [u8],
}

// Behind `IN`: the program instance that the first word names, and what stands behind it.
fn asked_in<'a>(plant: &Plant, text: &'a [u8]) -> Option<Asked<'a>>
    ensures { MatchOption result (option_and_then (conditions.asked_in plant.now) (script_lines.first_word text.now) ≡ None)
        (λ a. option_and_then (conditions.asked_in plant.now) (script_lines.first_word text.now) ≡ Some (a.program, a.text.now)) }
{
    let (name, text) = first_word(text)?;
    let program = plant.find_instance(name)?;
    Some(Asked { program, text })
}

/// Of which program instance a text says something, and what: behind `IN` and its name; or the whole text, where there is one instance.
/// None where it has no words, where there is no such instance, or none is named and there are several. It takes no memory.
pub fn find_asked<'a>(plant: &Plant, text: &'a [u8]) -> Option<Asked<'a>>
    ensures { MatchOption result (conditions.asked plant.now text.now ≡ None)
        (λ a. conditions.asked plant.now text.now ≡ Some (a.program, a.text.now)) }
{
    let (word, behind) = first_word(text)?;
    if is_same_word(word, b"IN") {
        return asked_in(plant, behind);
    }
    if plant.instances().len() != 1 {
        return None;
    }
    let program = ProgId(0);
    Some(Asked { program, text })
}

// What a text that is no expression is. The error is that memory was refused.
fn unread(kind: ReadErrorKind) -> Result<Option<BreakCondition>, AllocError>
    ensures condition { (plant : PlantData) (p : ProgId) (read : Read Tree) → FindsError kind (λ told. AreOne told read) →
        IfOk result (λ found. found ≡ conditions.condition_by plant p read) }
    ensures shared { (plant : PlantData) (read : Read Tree) → FindsError kind (λ told. AreOne told read) →
        IfOk result (λ found. found ≡ conditions.shared plant read) }
{
    match kind {
        ReadErrorKind::Memory => Err(AllocError),
        _ => Ok(None),
    }
}

// What an expression is that was checked. The error is that memory was refused.
fn of_checked(
    checked: Result<BreakCondition, ConditionError>,
) -> Result<Option<BreakCondition>, AllocError>
    ensures { (said : Result BreakCondition ConditionFault) → Gives (λ condition. condition) checked said →
        IfOk result (λ found. found ≡ conditions.found said) }
{
    match checked {
        Ok(condition) => Ok(Some(condition)),
        Err(ConditionError::UnknownProgram(_) | ConditionError::Wrong(_, _)) => Ok(None),
        Err(ConditionError::Memory) => Err(AllocError),
    }
}

/// The condition that a text is in a program instance, typed as that of a transition of its program type (2.6.3, 3.3); None where it is
/// none. The error is that memory was refused.
pub fn condition_in(
    alloc: Global,
    plant: &Plant,
    asked: Asked<'_>,
) -> Result<Option<BreakCondition>, AllocError>
    ensures { (read : Reader) → IsReader read → IfOk result (λ found.
        found ≡ conditions.condition_in plant.now read (asked.entry.program, asked.entry.text.now)) }
{
    one_expression_reading();
    match read_expr(alloc, asked.text) {
        Ok(expression) => of_checked(condition_of(alloc, plant, 0, asked.program, &expression)),
        Err(error) => unread(error.kind),
    }
}

// Whether an expression reads global variables alone.
fn is_shared(expr: &Expr) -> bool
    ensures { result ≡ conditions.is_shared (expression_of expr.now) }
{
    match expr {
        Expr::Literal(_) => true,
        Expr::Variable(variable) => matches!(variable, Variable::Global(_)),
        Expr::StepActive(_) | Expr::StepTime(_) | Expr::ActionQ => false,
        Expr::Not(operand) => is_shared(operand),
        Expr::Minus(_, operand) => is_shared(operand),
        Expr::Binary(_, _, left, right) => is_shared(left) && is_shared(right),
    }
}

// A condition that reads global variables alone, where there is one.
fn if_shared(condition: Option<BreakCondition>) -> Option<BreakCondition>
    ensures { result ≡ conditions.if_shared condition }
{
    match condition {
        Some(condition) if is_shared(condition.condition.expr()) => Some(condition),
        _ => None,
    }
}

// The condition that an expression is in the first program instance in which it reads global variables alone. The error is that memory was
// refused.
fn shared(
    alloc: Global,
    plant: &Plant,
    expression: &Expression,
) -> Result<Option<BreakCondition>, AllocError>
    ensures { IfOk result (λ found. found ≡ conditions.shared plant.now (Ok (tree_of expression.now))) }
{
    'instances: for number in 0..plant.instances().len() {
        let program = ProgId(number as u8);
        let checked = of_checked(condition_of(alloc, plant, 0, program, expression))?;
        if let Some(condition) = if_shared(checked) {
            return Ok(Some(condition));
        }
    }
    Ok(None)
}

// The condition of global variables alone that a text is, which names no program instance. The error is that memory was refused.
fn unasked(alloc: Global, plant: &Plant, text: &[u8]) -> Result<Option<BreakCondition>, AllocError>
    ensures { (read : Reader) → IsReader read → IfOk result (λ found. found ≡ conditions.unasked plant.now read text.now) }
{
    if names_instance(text) {
        return Ok(None);
    }
    one_expression_reading();
    match read_expr(alloc, text) {
        Ok(expression) => shared(alloc, plant, &expression),
        Err(error) => unread(error.kind),
    }
}

// The condition that a part of a text is: behind `IN` and a program instance; or by itself where there is one instance, or it reads global
// variables alone. The error is that memory was refused.
fn part_of(alloc: Global, plant: &Plant, text: &[u8]) -> Result<Option<BreakCondition>, AllocError>
    ensures { (read : Reader) → IsReader read → IfOk result (λ found. found ≡ conditions.part_of plant.now read text.now) }
{
    match find_asked(plant, text) {
        Some(asked) => condition_in(alloc, plant, asked),
        None => unasked(alloc, plant, text),
    }
}

// The same with what joins it to the parts before it.
fn part_said(
    alloc: Global,
    plant: &Plant,
    joint: Joint,
    text: &[u8],
) -> Result<Option<Part>, AllocError>
    ensures { (read : Reader) → IsReader read → IfOk result (λ found. found ≡ conditions.part_said plant.now read (joint, text.now)) }
{
    match part_of(alloc, plant, text)? {
        Some(condition) => Ok(Some(Part { joint, condition })),
        None => Ok(None),
    }
}

/// The condition that a text is: parts with AND or OR between, each behind `IN` and a program instance; the first one also by itself where
/// there is one instance, or where it reads global variables alone. None where it is none. The error is that memory was refused.
pub fn read_condition(
    alloc: Global,
    plant: &Plant,
    text: &[u8],
) -> Result<Option<Condition>, AllocError>
    ensures { (read : Reader) → IsReader read → IfOk result (λ found. found ≡ conditions.condition plant.now read text.now) }
{
    let mut parts = Vec::new(alloc);
    let mut joint = Joint::Or;
    let mut rest = text;
    let mut left = MOST_JOINTS;
    'parts: while let Some((front, next, behind)) = split_joint(left, rest) {
        let said = part_said(alloc, plant, joint, front)?;
        let Some(part) = said else {
            return Ok(None);
        };
        parts.push(part)?;
        joint = next;
        rest = behind;
        left -= 1;
    }
    let last = part_said(alloc, plant, joint, rest)?;
    let Some(part) = last else {
        return Ok(None);
    };
    parts.push(part)?;
    Ok(Some(Condition {
        parts: Items::from_vec(parts),
    }))
}
