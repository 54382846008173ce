//! Typed expressions (3.3.1). Nothing is folded: a tree has all that was written but parentheses.

ghost use Rattle.std.specs.Prelude.{◌≡◌, IfOk};
ghost use Rattle.sfc_expr.specs.Trees.{expression_of};

use crate::operator::Operator;
use sfc_base::references::{StepId, Variable};
use sfc_base::value::Value;
use sfc_base::var_type::VarType;
use std::alloc::{AllocError, Global};

/// An expression whose types were checked.
#[derive(Debug)]
pub enum Expr {
    /// A literal, its sign included.
    Literal(Value),
    /// The value of a variable.
    Variable(Variable),
    /// Whether a step is active, `S.X` (2.6.2).
    StepActive(StepId),
    /// The time that a step has been active, or was when it was last, `S.T` (2.6.2).
    StepTime(StepId),
    /// The output `Q` of the action's control block (2.6.4.5).
    ActionQ,
    /// `NOT`.
    Not(Box<Expr>),
    /// The minus of an operand of this type.
    Minus(VarType, Box<Expr>),
    /// A binary operator on two operands of this type, the left one first.
    Binary(Operator, VarType, Box<Expr>, Box<Expr>),
}

// By hand, so that a caller that drops one proves one call.
impl Drop for Expr {
    fn drop(self) {
        match self {
            Expr::Literal(_) => {}
            Expr::Variable(_) => {}
            Expr::StepActive(_) => {}
            Expr::StepTime(_) => {}
            Expr::ActionQ => {}
            Expr::Not(_) => {}
            Expr::Minus(_, _) => {}
            Expr::Binary(_, _, _, _) => {}
        }
    }
}

// The copy of an operand.
fn copy_of(expr: &Expr, alloc: Global) -> Result<Expr, AllocError>
    ensures { IfOk result (λ copy. expression_of copy ≡ expression_of expr.now) }
{
    match expr {
        Expr::Literal(value) => Ok(Expr::Literal(*value)),
        Expr::Variable(variable) => Ok(Expr::Variable(*variable)),
        Expr::StepActive(step) => Ok(Expr::StepActive(*step)),
        Expr::StepTime(step) => Ok(Expr::StepTime(*step)),
        Expr::ActionQ => Ok(Expr::ActionQ),
        Expr::Not(operand) => Ok(Expr::Not(Box::new(alloc, copy_of(operand, alloc)?)?)),
        Expr::Minus(var_type, operand) => {
            let operand = copy_of(operand, alloc)?;
            Ok(Expr::Minus(*var_type, Box::new(alloc, operand)?))
        }
        Expr::Binary(operator, var_type, left, right) => {
            let left = copy_of(left, alloc)?;
            let right = copy_of(right, alloc)?;
            let left = Box::new(alloc, left)?;
            Ok(Expr::Binary(*operator, *var_type, left, Box::new(alloc, right)?))
        }
    }
}

impl Expr {
    /// The same expression once more. The one error is that memory was refused.
    pub fn copy(&self, alloc: Global) -> Result<Expr, AllocError>
        ensures { IfOk result (λ copy. expression_of copy ≡ expression_of self.now) }
    {
        copy_of(self, alloc)
    }
}
