//! What a condition reads.

use crate::sfc_instance::program_view::ProgramView;
use sfc_base::references::{StepId, Variable};
use sfc_base::value::Value;
use sfc_expr::expr::Expr;
use sfc_expr::view::View;
use sfc_page::append::{append, append_value};
use sfc_plant::names::Names;
use std::alloc::{AllocError, Global};

/// Something that a condition reads.
#[derive(Clone, Copy, Debug, PartialEq, Eq)]
enum Operand {
    Variable(Variable),
    Active(StepId),
    Time(StepId),
}

// Adds an operand, where it isn't there.
fn add(found: &mut Vec<Operand>, operand: Operand) -> Result<(), AllocError> {
    if !found.iter().any(|other| *other == operand) {
        found.push(operand)?;
    }
    Ok(())
}

// Adds what an expression reads, from left to right.
fn add_all(found: &mut Vec<Operand>, expr: &Expr) -> Result<(), AllocError> {
    match expr {
        Expr::Literal(_) | Expr::ActionQ => Ok(()),
        Expr::Variable(variable) => add(found, Operand::Variable(*variable)),
        Expr::StepActive(step) => add(found, Operand::Active(*step)),
        Expr::StepTime(step) => add(found, Operand::Time(*step)),
        Expr::Not(operand) => add_all(found, operand),
        Expr::Minus(_, operand) => add_all(found, operand),
        Expr::Binary(_, _, left, right) => {
            add_all(found, left)?;
            add_all(found, right)
        }
    }
}

// A line: a name, what stands behind it, and a value.
fn append_line(
    out: &mut Vec<u8>,
    name: &[u8],
    behind: &[u8],
    value: Value,
) -> Result<(), AllocError> {
    append(out, b"    ")?;
    append(out, name)?;
    append(out, behind)?;
    append(out, b" ")?;
    append_value(out, value)?;
    append(out, b"\n")
}

// The line of an operand.
fn append_operand(
    out: &mut Vec<u8>,
    names: &Names<'_>,
    view: &ProgramView<'_>,
    operand: Operand,
) -> Result<(), AllocError> {
    match operand {
        Operand::Variable(variable) => {
            append_line(out, names.variable(variable), b"", view.value_at(variable))
        }
        Operand::Active(step) => {
            append_line(
                out,
                names.step(step),
                b".X",
                Value::Bool(view.is_active(step)),
            )
        }
        Operand::Time(step) => {
            append_line(
                out,
                names.step(step),
                b".T",
                Value::Time(view.time_of(step)),
            )
        }
    }
}

/// Puts at the end a line for each thing that an expression of a program instance reads, with its value. The one error is that memory was
/// refused.
pub fn append_operands(
    alloc: Global,
    out: &mut Vec<u8>,
    names: &Names<'_>,
    view: &ProgramView<'_>,
    expr: &Expr,
) -> Result<(), AllocError> {
    let mut found = Vec::new(alloc);
    add_all(&mut found, expr)?;
    for operand in &found {
        append_operand(out, names, view, *operand)?;
    }
    Ok(())
}
