//! The types of statements (3.3.2).

ghost use Rattle.std.specs.Prelude.{◌≡◌};
ghost use Rattle.sfc_text.specs.Trees as text;
ghost use Rattle.sfc_check.specs.Checking as checking;
ghost use Rattle.sfc_check.specs.TypeFaults.{Gives, GivesExactly};
ghost use Rattle.sfc_expr.specs.Trees.{Nothing, If, NoBranch, When, Otherwise};
ghost use Rattle.sfc_expr.specs.Trees.{before, tried_before, body_of, branches_of, expression_of};

use crate::check::check;
use crate::placed_error::{PlacedTypeError, checked_at};
use crate::scope::Scope;
use crate::type_error::TypeError;
use sfc_base::references::Variable;
use sfc_base::var_type::VarType;
use sfc_expr::expr::Expr;
use sfc_expr::statement::{Branch, Statement};
use sfc_text::expression::{Expression, Variable as Name};
use sfc_text::statement::{Branch as WrittenBranch, Statement as WrittenStatement};
use std::alloc::Global;

/// The typed trees of statements, or their first type fault in text order; a target is at fault at its name.
#[cycle(check_body)]
#[tactic(auto, using(crate::proofs::Checks::statements))]
pub fn check_body<S: Scope>(
    alloc: Global,
    statements: &[WrittenStatement],
    scope: &S,
) -> Result<Vec<Statement>, PlacedTypeError>
    ensures { Gives (λ v. body_of v.items) result
        (checking.checked_body (S.names scope.now) (text.block_of statements.now)) }
{
    let mut checked = Vec::new(alloc);
    for statement in statements {
        checked.push(check_statement(alloc, statement, scope)?)?;
    }
    Ok(checked)
}

// The typed tree of one statement.
#[cycle(check_body)]
#[tactic(auto, using(crate::proofs::Checks::as_if))]
fn check_statement<S: Scope>(
    alloc: Global,
    statement: &WrittenStatement,
    scope: &S,
) -> Result<Statement, PlacedTypeError>
    ensures { Gives (λ s. before s Nothing) result
        (checking.checked_body (S.names scope.now) (text.before statement.now text.Nothing)) }
{
    match statement {
        WrittenStatement::Assign(target, value, _) => check_assignment(alloc, target, value, scope),
        WrittenStatement::If(branches, _) => check_if(alloc, branches, scope),
    }
}

// The typed tree of an assignment.
fn check_assignment<S: Scope>(
    alloc: Global,
    target: &Name,
    value: &Expression,
    scope: &S,
) -> Result<Statement, PlacedTypeError>
    ensures { Gives (λ s. before s Nothing) result
        (checking.checked_body (S.names scope.now) (text.Assign target.now (text.tree_of value.now) text.Nothing)) }
{
    let span = target.name.span();
    let (target, var_type) = checked_at(check_target(target, scope), span)?;
    let value = check(alloc, value, scope, var_type)?;
    Ok(Statement::Assign { target, value })
}

// The variable that an assignment is to, with its type.
fn check_target<S: Scope>(target: &Name, scope: &S) -> Result<(Variable, VarType), TypeError>
    ensures { GivesExactly (λ v. v) result (checking.checked_target (S.names scope.now) target.now) }
{
    match &target.part {
        Some(_) => Err(TypeError::NotAssignable),
        None => match scope.variable(target.name.spelling()) {
            Some(variable) => Ok(variable),
            None => Err(TypeError::Unknown),
        },
    }
}

// The typed tree of an IF.
#[cycle(check_body)]
fn check_if<S: Scope>(
    alloc: Global,
    branches: &[WrittenBranch],
    scope: &S,
) -> Result<Statement, PlacedTypeError>
    ensures { Gives (λ s. before s Nothing) result
        (checking.checked_body (S.names scope.now) (text.If (text.branches_of branches.now) text.Nothing)) }
{
    Ok(if_of(check_branches(alloc, branches, scope)?))
}

// The typed branches of an IF, in text order.
#[cycle(check_body)]
#[tactic(auto, using(crate::proofs::Checks::branches))]
fn check_branches<S: Scope>(
    alloc: Global,
    branches: &[WrittenBranch],
    scope: &S,
) -> Result<Vec<Branch>, PlacedTypeError>
    ensures { Gives (λ v. branches_of v.items) result
        (checking.checked_branches (S.names scope.now) (text.branches_of branches.now)) }
{
    let mut checked = Vec::new(alloc);
    for branch in branches {
        checked.push(check_branch(alloc, branch, scope)?)?;
    }
    Ok(checked)
}

// The typed tree of one branch.
#[cycle(check_body)]
#[tactic(auto, using(crate::proofs::Checks::parts))]
fn check_branch<S: Scope>(
    alloc: Global,
    branch: &WrittenBranch,
    scope: &S,
) -> Result<Branch, PlacedTypeError>
    ensures { Gives (λ b. tried_before b NoBranch) result
        (checking.checked_branches (S.names scope.now) (text.beside branch.now text.Nothing)) }
{
    match branch {
        WrittenBranch::When(condition, body) => check_when(alloc, body, condition, scope),
        WrittenBranch::Otherwise(body) => check_otherwise(alloc, body, scope),
    }
}

// The typed tree of a branch with a condition, which stands before its statements.
#[cycle(check_body)]
fn check_when<S: Scope>(
    alloc: Global,
    body: &[WrittenStatement],
    condition: &Expression,
    scope: &S,
) -> Result<Branch, PlacedTypeError>
    ensures { let written : _ = text.When (text.tree_of condition.now) (text.block_of body.now) text.Nothing in
        Gives (λ b. tried_before b NoBranch) result (checking.checked_branches (S.names scope.now) written) }
{
    let condition = check(alloc, condition, scope, VarType::Bool)?;
    Ok(when_of(condition, check_body(alloc, body, scope)?))
}

// The typed tree of an ELSE branch.
#[cycle(check_body)]
fn check_otherwise<S: Scope>(
    alloc: Global,
    body: &[WrittenStatement],
    scope: &S,
) -> Result<Branch, PlacedTypeError>
    ensures { let written : _ = text.Otherwise (text.block_of body.now) text.Nothing in
        Gives (λ b. tried_before b NoBranch) result (checking.checked_branches (S.names scope.now) written) }
{
    Ok(otherwise_of(check_body(alloc, body, scope)?))
}

// An IF of these branches.
fn if_of(branches: Vec<Branch>) -> Statement
    ensures { before result Nothing ≡ If (branches_of branches.items) Nothing }
{
    Statement::If(branches)
}

// A branch with a condition.
fn when_of(condition: Expr, body: Vec<Statement>) -> Branch
    ensures { tried_before result NoBranch ≡ When (expression_of condition) (body_of body.items) NoBranch }
{
    Branch::When(condition, body)
}

// An ELSE branch.
fn otherwise_of(body: Vec<Statement>) -> Branch
    ensures { tried_before result NoBranch ≡ Otherwise (body_of body.items) NoBranch }
{
    Branch::Otherwise(body)
}
