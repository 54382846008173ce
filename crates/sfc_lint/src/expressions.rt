//! Conditions and bodies (2.6.3, 3.3).

use crate::constant::{compared, constant, is_zero};
use crate::finding::Findings;
use crate::kind::Kind;
use crate::view::{View, transition_id};
use sfc_expr::expr::Expr;
use sfc_expr::operator::Operator;
use sfc_expr::statement::{Branch, Statement};
use sfc_outline::item::Item;
use sfc_page::append::append;
use std::alloc::{AllocError, Global};

// Whether somewhere in the expression a number is divided by 0.
fn divides_by_zero(expr: &Expr) -> bool {
    match expr {
        Expr::Not(inner) | Expr::Minus(_, inner) => divides_by_zero(inner),
        Expr::Binary(operator, _, left, right) => {
            *operator == Operator::Divide && is_zero(right)
                || divides_by_zero(left)
                || divides_by_zero(right)
        }
        _ => false,
    }
}

// Adds the first comparison in the expression that is always the same, and what it gives; whether there is one.
fn add_same(
    alloc: Global,
    view: &View<'_>,
    expr: &Expr,
    told: &mut Vec<u8>,
) -> Result<bool, AllocError> {
    match expr {
        Expr::Not(inner) | Expr::Minus(_, inner) => add_same(alloc, view, inner, told),
        Expr::Binary(operator, var_type, left, right) => {
            if let Some(value) = compared(*operator, *var_type, left, right) {
                add_compared(alloc, view, expr, value, told)?;
                return Ok(true);
            }
            if add_same(alloc, view, left, told)? {
                return Ok(true);
            }
            add_same(alloc, view, right, told)
        }
        _ => Ok(false),
    }
}

// Adds a comparison, and what it always gives.
fn add_compared(
    alloc: Global,
    view: &View<'_>,
    expr: &Expr,
    value: bool,
    told: &mut Vec<u8>,
) -> Result<(), AllocError> {
    match view.expression(alloc, expr)? {
        Some(text) => append(told, &text)?,
        None => append(told, b"a comparison")?,
    }
    append(
        told,
        if value {
            b" is always TRUE"
        } else {
            b" is always FALSE"
        },
    )
}

// Tells what is wrong with an expression wherever it stands.
fn tell_expression(
    findings: &mut Findings,
    view: &View<'_>,
    item: Item,
    expr: &Expr,
) -> Result<(), AllocError> {
    if divides_by_zero(expr) {
        findings.tell(
            Kind::DivisionByZero,
            item,
            &[b"a number is divided by 0 here"],
        )?;
    }
    let alloc = findings.alloc();
    let mut told = Vec::new(alloc);
    if add_same(alloc, view, expr, &mut told)? {
        findings.tell_text(Kind::AlwaysSame, item, told)?;
    }
    Ok(())
}

/// Tells what is wrong with the conditions of a program type. The one error is that memory was refused.
pub fn tell_conditions(findings: &mut Findings, view: &View<'_>) -> Result<(), AllocError> {
    for (place, transition) in view.transitions().iter().enumerate() {
        let item = Item::Condition {
            program: view.number,
            transition: place,
        };
        let expr = transition.condition.expr();
        if constant(expr) == Some(false) {
            let name = view.transition(findings.alloc(), transition_id(place))?;
            findings.tell(
                Kind::NeverTrue,
                item,
                &[b"the condition of transition ", &name, b" is always FALSE"],
            )?;
        }
        tell_expression(findings, view, item, expr)?;
    }
    Ok(())
}

// The item of a statement of an action.
fn statement_item(view: &View<'_>, action: usize, statement: usize) -> Item {
    Item::Statement {
        program: view.number,
        action,
        statement,
    }
}

// Tells what is wrong with a branch of an IF; whether it is always taken where it is come to.
fn tell_branch(
    findings: &mut Findings,
    view: &View<'_>,
    item: Item,
    branch: &Branch,
    is_passed: bool,
) -> Result<bool, AllocError> {
    let value = match branch {
        Branch::When(condition, _) => {
            tell_expression(findings, view, item, condition)?;
            constant(condition)
        }
        Branch::Otherwise(_) => None,
    };
    if is_passed {
        findings.tell(
            Kind::DeadBranch,
            item,
            &[b"a branch of this IF can't be taken: one before it always is"],
        )?;
    } else if value == Some(false) {
        findings.tell(
            Kind::DeadBranch,
            item,
            &[b"a branch of this IF can't be taken: its condition is always FALSE"],
        )?;
    }
    Ok(is_passed || value == Some(true))
}

// Tells what is wrong with the statements, of which the first has this number; the number behind them.
#[cycle(walk)]
fn tell_statements(
    findings: &mut Findings,
    view: &View<'_>,
    action: usize,
    statements: &[Statement],
    first: usize,
) -> Result<usize, AllocError> {
    let mut number = first;
    for statement in statements {
        number = tell_statement(findings, view, action, statement, number)?;
    }
    Ok(number)
}

// Tells what is wrong with a statement of this number; the number behind it and those in it.
#[cycle(walk)]
fn tell_statement(
    findings: &mut Findings,
    view: &View<'_>,
    action: usize,
    statement: &Statement,
    number: usize,
) -> Result<usize, AllocError> {
    let item = statement_item(view, action, number);
    match statement {
        Statement::Assign { target: _, value } => {
            tell_expression(findings, view, item, value)?;
            Ok(number.saturating_add(1))
        }
        Statement::If(branches) => tell_if(findings, view, action, branches, number),
    }
}

// Tells what is wrong with the branches of the IF with this number; the number behind it and those in it.
#[cycle(walk)]
fn tell_if(
    findings: &mut Findings,
    view: &View<'_>,
    action: usize,
    branches: &[Branch],
    number: usize,
) -> Result<usize, AllocError> {
    let item = statement_item(view, action, number);
    let mut behind = number.saturating_add(1);
    let mut is_passed = false;
    for branch in branches {
        is_passed = tell_branch(findings, view, item, branch, is_passed)?;
        behind = match branch {
            Branch::When(_, body) => tell_statements(findings, view, action, body, behind)?,
            Branch::Otherwise(body) => tell_statements(findings, view, action, body, behind)?,
        };
    }
    Ok(behind)
}

/// Tells what is wrong with the bodies of the actions of a program type. The one error is that memory was refused.
pub fn tell_bodies(findings: &mut Findings, view: &View<'_>) -> Result<(), AllocError> {
    for (place, action) in view.chart().actions.as_slice().iter().enumerate() {
        let _behind = tell_statements(findings, view, place, action.body.as_slice(), 0)?;
    }
    Ok(())
}
