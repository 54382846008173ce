//! Statements (3.3.2).

use crate::expression::{Expression, Variable};
use sfc_tokens::span::Span;

/// A statement, with its bytes before the semicolon.
#[cycle(statement)]
#[derive(Debug)]
pub enum Statement {
    /// The variable takes the value of the expression.
    Assign(Variable, Expression, Span),
    /// The branches of an IF statement, in text order: of IF, of each ELSIF, and of ELSE where it was written.
    If(Vec<Branch>, Span),
}

// By hand, so that a caller that drops one proves one call.
impl Drop for Statement {
    #[cycle(statement)]
    fn drop(self) {
        match self {
            Statement::Assign(_, _, _) => {}
            Statement::If(_, _) => {}
        }
    }
}

/// A branch of an IF statement.
#[cycle(statement)]
#[derive(Debug)]
pub enum Branch {
    /// The condition, and the statements behind THEN.
    When(Expression, Vec<Statement>),
    /// The statements behind ELSE.
    Otherwise(Vec<Statement>),
}

// By hand, so that a caller that drops one proves one call.
impl Drop for Branch {
    #[cycle(statement)]
    fn drop(self) {
        match self {
            Branch::When(_, _) => {}
            Branch::Otherwise(_) => {}
        }
    }
}
