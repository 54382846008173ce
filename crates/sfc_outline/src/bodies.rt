//! The statements of actions.

use crate::draft::Draft;
use crate::expressions::mention_names;
use crate::item::Item;
use crate::spaces::Scope;
use sfc_text::statement::{Branch, Statement};
use std::alloc::AllocError;

/// The body of an action: its place among those of its program type, and how many entries stand before its statements.
#[derive(Clone, Copy)]
pub struct Body {
    pub action: usize,
    pub before: usize,
}

// The next statement of the body.
fn next_statement(body: Body, scope: &Scope<'_>, draft: &Draft) -> Item {
    Item::Statement {
        program: scope.program,
        action: body.action,
        statement: draft.entries.len().saturating_sub(body.before),
    }
}

/// Puts the statements last, and the names in them. The one error is that memory was refused.
#[cycle(statements)]
pub fn outline_statements(
    statements: &[Statement],
    body: Body,
    scope: &Scope<'_>,
    draft: &mut Draft,
) -> Result<(), AllocError> {
    for statement in statements {
        outline_statement(statement, body, scope, draft)?;
    }
    Ok(())
}

// Puts a statement last, with those in it.
#[cycle(statements)]
fn outline_statement(
    statement: &Statement,
    body: Body,
    scope: &Scope<'_>,
    draft: &mut Draft,
) -> Result<(), AllocError> {
    let item = next_statement(body, scope, draft);
    match statement {
        Statement::Assign(target, value, span) => {
            draft.outline(item, *span)?;
            draft.mention(&target.name, scope.referent(target))?;
            mention_names(value, scope, draft)
        }
        Statement::If(branches, span) => {
            draft.outline(item, *span)?;
            outline_branches(branches, body, scope, draft)
        }
    }
}

// Puts the statements of branches last, and the names in them.
#[cycle(statements)]
fn outline_branches(
    branches: &[Branch],
    body: Body,
    scope: &Scope<'_>,
    draft: &mut Draft,
) -> Result<(), AllocError> {
    for branch in branches {
        outline_branch(branch, body, scope, draft)?;
    }
    Ok(())
}

// Puts the statements of a branch last, and the names in it.
#[cycle(statements)]
fn outline_branch(
    branch: &Branch,
    body: Body,
    scope: &Scope<'_>,
    draft: &mut Draft,
) -> Result<(), AllocError> {
    match branch {
        Branch::When(condition, statements) => {
            mention_names(condition, scope, draft)?;
            outline_statements(statements, body, scope, draft)
        }
        Branch::Otherwise(statements) => outline_statements(statements, body, scope, draft),
    }
}
