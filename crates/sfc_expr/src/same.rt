//! Expressions that are the same.

ghost use Rattle.std.specs.Prelude.{◌≡◌, true, false};
ghost use Rattle.sfc_expr.specs.Trees.{expression_of, Literal, Read, StepActive, StepTime, ActionQ, Not, Minus, Binary};

use crate::expr::Expr;
use crate::operator::Operator;
use sfc_base::references::{StepId, Variable};
use sfc_base::value::Value;
use sfc_base::var_type::VarType;

// Whether the expression is this literal.
fn is_literal(e: &Expr, value: Value) -> bool
    ensures same { result ≡ true → expression_of e.now ≡ Literal value }
    ensures other { result ≡ false → expression_of e.now ≡ Literal value → ⊥ }
{
    match e {
        Expr::Literal(own) => *own == value,
        _ => false,
    }
}

// Whether it is this variable.
fn is_variable(e: &Expr, variable: Variable) -> bool
    ensures same { result ≡ true → expression_of e.now ≡ Read variable }
    ensures other { result ≡ false → expression_of e.now ≡ Read variable → ⊥ }
{
    match e {
        Expr::Variable(own) => *own == variable,
        _ => false,
    }
}

// Whether it is this step's X.
fn is_active(e: &Expr, step: StepId) -> bool
    ensures same { result ≡ true → expression_of e.now ≡ StepActive step }
    ensures other { result ≡ false → expression_of e.now ≡ StepActive step → ⊥ }
{
    match e {
        Expr::StepActive(own) => *own == step,
        _ => false,
    }
}

// Whether it is this step's T.
fn is_time(e: &Expr, step: StepId) -> bool
    ensures same { result ≡ true → expression_of e.now ≡ StepTime step }
    ensures other { result ≡ false → expression_of e.now ≡ StepTime step → ⊥ }
{
    match e {
        Expr::StepTime(own) => *own == step,
        _ => false,
    }
}

// Whether it is the action's Q.
fn is_q(e: &Expr) -> bool
    ensures same { result ≡ true → expression_of e.now ≡ ActionQ }
    ensures other { result ≡ false → expression_of e.now ≡ ActionQ → ⊥ }
{
    matches!(e, Expr::ActionQ)
}

/// Whether two expressions are the same, wherever their parts lie in memory.
#[cycle(same)]
pub fn is_same(other: &Expr, e: &Expr) -> bool
    ensures same { result ≡ true → expression_of other.now ≡ expression_of e.now }
    ensures other { result ≡ false → expression_of other.now ≡ expression_of e.now → ⊥ }
{
    match e {
        Expr::Literal(value) => is_literal(other, *value),
        Expr::Variable(variable) => is_variable(other, *variable),
        Expr::StepActive(step) => is_active(other, *step),
        Expr::StepTime(step) => is_time(other, *step),
        Expr::ActionQ => is_q(other),
        Expr::Not(operand) => is_not(other, operand),
        Expr::Minus(var_type, operand) => is_minus(other, *var_type, operand),
        Expr::Binary(operator, var_type, left, right) => {
            is_binary(other, (*operator, *var_type), left, right)
        }
    }
}

// Whether it is NOT of this operand.
#[cycle(same)]
fn is_not(other: &Expr, operand: &Expr) -> bool
    ensures same { result ≡ true → expression_of other.now ≡ Not (expression_of operand.now) }
    ensures other { result ≡ false → expression_of other.now ≡ Not (expression_of operand.now) → ⊥ }
{
    match other {
        Expr::Not(own) => is_same(own, operand),
        _ => false,
    }
}

// Whether it is the minus of this operand of this type.
#[cycle(same)]
fn is_minus(other: &Expr, var_type: VarType, operand: &Expr) -> bool
    ensures same { result ≡ true → expression_of other.now ≡ Minus var_type (expression_of operand.now) }
    ensures other { result ≡ false → expression_of other.now ≡ Minus var_type (expression_of operand.now) → ⊥ }
{
    match other {
        Expr::Minus(own_type, own) => *own_type == var_type && is_same(own, operand),
        _ => false,
    }
}

// Whether it is this operator on these operands of this type.
#[cycle(same)]
fn is_binary(other: &Expr, on: (Operator, VarType), left: &Expr, right: &Expr) -> bool
    ensures same { result ≡ true →
        expression_of other.now ≡ Binary on.0 on.1 (expression_of left.now) (expression_of right.now) }
    ensures other { result ≡ false →
        expression_of other.now ≡ Binary on.0 on.1 (expression_of left.now) (expression_of right.now) → ⊥ }
{
    match other {
        Expr::Binary(operator, var_type, own_left, own_right) => {
            if (*operator, *var_type) != on || !is_same(own_left, left) {
                return false;
            }
            is_same(own_right, right)
        }
        _ => false,
    }
}
