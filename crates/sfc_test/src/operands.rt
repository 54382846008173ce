//! What conditions read, in one line.

use crate::sfc_debug::break_condition::BreakCondition;
use crate::sfc_instance::program_view::ProgramView;
use crate::sfc_instance::scan_fault::ScanFault;
use sfc_base::ids::ProgId;
use sfc_base::references::{StepId, Variable};
use sfc_base::ticks::Ticks;
use sfc_base::value::Value;
use sfc_cases::joined::Condition;
use sfc_expr::eval::eval;
use sfc_expr::expr::Expr;
use sfc_expr::view::View;
use sfc_judge::bench::Bench;
use sfc_page::append::{append, append_value};
use sfc_plant::names::{Names, instance_name};
use std::alloc::{AllocError, Global};

/// Something that a condition reads.
#[derive(Clone, Copy, Debug, PartialEq, Eq)]
enum Operand {
    Variable(Variable),
    Active(StepId),
    Time(StepId),
}

// Adds an operand, where it isn't there.
fn add(found: &mut Vec<Operand>, operand: Operand) -> Result<(), AllocError> {
    if !found.iter().any(|other| *other == operand) {
        found.push(operand)?;
    }
    Ok(())
}

// Adds what an expression reads, from left to right.
fn add_all(found: &mut Vec<Operand>, expr: &Expr) -> Result<(), AllocError> {
    match expr {
        Expr::Literal(_) | Expr::ActionQ => Ok(()),
        Expr::Variable(variable) => add(found, Operand::Variable(*variable)),
        Expr::StepActive(step) => add(found, Operand::Active(*step)),
        Expr::StepTime(step) => add(found, Operand::Time(*step)),
        Expr::Not(operand) => add_all(found, operand),
        Expr::Minus(_, operand) => add_all(found, operand),
        Expr::Binary(_, _, left, right) => {
            add_all(found, left)?;
            add_all(found, right)
        }
    }
}

// What stands before a name, a name, what stands behind it, and a value.
fn append_read(
    out: &mut Vec<u8>,
    own: &[u8],
    name: &[u8],
    behind: &[u8],
    value: Value,
) -> Result<(), AllocError> {
    append(out, own)?;
    append(out, name)?;
    append(out, behind)?;
    append(out, b" ")?;
    append_value(out, value)
}

// An operand, and what it reads; what is a program's own has this before it.
fn append_operand(
    out: &mut Vec<u8>,
    own: &[u8],
    names: &Names<'_>,
    view: &ProgramView<'_>,
    operand: Operand,
) -> Result<(), AllocError> {
    match operand {
        Operand::Variable(variable) => {
            let own = match variable {
                Variable::Global(_) => b"",
                Variable::Local(_) => own,
            };
            append_read(
                out,
                own,
                names.variable(variable),
                b"",
                view.value_at(variable),
            )
        }
        Operand::Active(step) => {
            let value = Value::Bool(view.is_active(step));
            append_read(out, own, names.step(step), b".X", value)
        }
        Operand::Time(step) => {
            let value = Value::Time(view.time_of(step));
            append_read(out, own, names.step(step), b".T", value)
        }
    }
}

/// Puts the joint between the parts of a list at the end, where it has one behind this place. The one error is that memory was refused.
pub fn append_joint(out: &mut Vec<u8>, begin: usize) -> Result<(), AllocError> {
    if out.len() > begin {
        append(out, b", ")?;
    }
    Ok(())
}

/// Puts a dash at the end in place of a list that has no part behind this place. The one error is that memory was refused.
pub fn append_none(out: &mut Vec<u8>, begin: usize) -> Result<(), AllocError> {
    if out.len() == begin {
        append(out, b"-")?;
    }
    Ok(())
}

// That the evaluation ends with a fault, if it does, in a list that begins at this place.
fn append_fault(
    out: &mut Vec<u8>,
    begin: usize,
    view: &ProgramView<'_>,
    expr: &Expr,
) -> Result<(), AllocError> {
    let mut ticks = Ticks::new();
    match eval(expr, view, &mut ticks) {
        Ok(_) => Ok(()),
        Err(fault) => {
            append_joint(out, begin)?;
            append(out, b"fault ")?;
            append(out, ScanFault::Expression(fault).name())
        }
    }
}

// The name of a program instance and a dot.
fn own_name(alloc: Global, bench: &Bench, program: ProgId) -> Result<Vec<u8>, AllocError> {
    let mut own = Vec::new(alloc);
    let instances = bench.resource().plant().instances();
    append(&mut own, instance_name(instances, usize::from(program.0)))?;
    append(&mut own, b".")?;
    Ok(own)
}

// What a part of a condition reads, where a list begins; what is a program's own has this before it.
fn append_part(
    alloc: Global,
    out: &mut Vec<u8>,
    bench: &Bench,
    own: &[u8],
    part: &BreakCondition,
) -> Result<(), AllocError> {
    let Some(view) = bench.view(part.program) else {
        return Ok(());
    };
    let begin = out.len();
    let names = bench.resource().plant().names(part.program);
    let expr = part.condition.expr();
    let mut found = Vec::new(alloc);
    add_all(&mut found, expr)?;
    for operand in &found {
        append_joint(out, begin)?;
        append_operand(out, own, &names, &view, *operand)?;
    }
    append_fault(out, begin, &view, expr)?;
    append_none(out, begin)
}

/// Puts at the end what a condition reads, part by part: each variable and step of a part once with its value, from left to right, with
/// commas between; and the fault with which the part's evaluation ends, if it does; or a dash, where it reads nothing. Where there are
/// several parts, what is a program's own has the name of its instance before it. The one error is that memory was refused.
pub fn append_operands(
    alloc: Global,
    out: &mut Vec<u8>,
    bench: &Bench,
    condition: &Condition,
) -> Result<(), AllocError> {
    let begin = out.len();
    for part in condition.parts.as_slice() {
        append_joint(out, begin)?;
        let own = if condition.parts.len() > 1 {
            own_name(alloc, bench, part.condition.program)?
        } else {
            Vec::new(alloc)
        };
        append_part(alloc, out, bench, &own, &part.condition)?;
    }
    Ok(())
}
