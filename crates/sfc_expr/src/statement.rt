//! Typed statements (3.3.2).

use crate::expr::Expr;
use sfc_base::references::Variable;

/// A statement whose types were checked.
#[cycle(statement)]
#[derive(Debug)]
pub enum Statement {
    /// An assignment, `target := value` (3.3.2.1).
    Assign { target: Variable, value: Expr },
    /// `IF` with its branches in the order of the text (3.3.2.3).
    If(Vec<Branch>),
}

// By hand, so that a caller that drops one proves one call.
impl Drop for Statement {
    #[cycle(statement)]
    fn drop(self) {
        match self {
            Statement::Assign {
                target: _,
                value: _,
            } => {}
            Statement::If(_) => {}
        }
    }
}

/// A branch of an `IF`.
#[cycle(statement)]
#[derive(Debug)]
pub enum Branch {
    /// `IF` or `ELSIF`, its condition and its statements.
    When(Expr, Vec<Statement>),
    /// `ELSE` and its statements.
    Otherwise(Vec<Statement>),
}

// By hand, so that a caller that drops one proves one call.
impl Drop for Branch {
    #[cycle(statement)]
    fn drop(self) {
        match self {
            Branch::When(_, _) => {}
            Branch::Otherwise(_) => {}
        }
    }
}
