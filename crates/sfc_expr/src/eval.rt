//! The value of an expression (3.3.1).

ghost use Rattle.std.specs.Prelude.{◌≡◌, ◌≤◌, IfSome, Ok};
ghost use Rattle.sfc_base.specs.Ticks.{Within};
ghost use Rattle.sfc_expr.specs.Trees.{expression_of};
ghost use Rattle.sfc_expr.specs.Meaning.{of_truth, truth_of, value_of};
ghost use Rattle.sfc_expr.specs.Nodes.{nodes};
ghost use Rattle.sfc_expr.specs.Private.Orders.{number_of};

use crate::expr::Expr;
use crate::fault::Fault;
use crate::number;
use crate::operate::operate;
use crate::operator::Operator;
use crate::view::View;
use sfc_base::ticks::Ticks;
use sfc_base::value::Value;

// What is read with no operand to evaluate: a literal, a variable, what is known of a step, or Q.
#[inline(always)]
fn leaf<V: View>(expr: &Expr, view: &V) -> Option<Value>
    ensures { IfSome result (λ x. value_of (V.environment view.now) (expression_of expr.now) ≡ Ok x) }
{
    match expr {
        Expr::Literal(value) => Some(*value),
        Expr::Variable(variable) => Some(view.value_at(*variable)),
        Expr::StepActive(step) => Some(Value::Bool(view.is_active(*step))),
        Expr::StepTime(step) => Some(Value::Time(view.time_of(*step))),
        Expr::ActionQ => Some(Value::Bool(view.q())),
        Expr::Not(_) | Expr::Minus(_, _) | Expr::Binary(_, _, _, _) => None,
    }
}

// The value or the fault of an expression of one operator or none, whose operands are read.
#[inline(always)]
fn small<V: View>(expr: &Expr, view: &V) -> Option<Result<Value, Fault>>
    ensures value { IfSome result (λ answer. value_of (V.environment view.now) (expression_of expr.now) ≡ answer) }
    ensures nodes { IfSome result (λ _. 1 ≤ nodes (expression_of expr.now)) }
{
    match expr {
        Expr::Literal(value) => Some(Ok(*value)),
        Expr::Variable(variable) => Some(Ok(view.value_at(*variable))),
        Expr::StepActive(step) => Some(Ok(Value::Bool(view.is_active(*step)))),
        Expr::StepTime(step) => Some(Ok(Value::Time(view.time_of(*step)))),
        Expr::ActionQ => Some(Ok(Value::Bool(view.q()))),
        Expr::Not(_) | Expr::Minus(_, _) => None,
        Expr::Binary(operator, var_type, left, right) => {
            match (leaf(left, view), leaf(right, view)) {
                (Some(left), Some(right)) => Some(operate(*operator, *var_type, left, right)),
                _ => None,
            }
        }
    }
}

// The value of an expression, or its first fault. Operands that are read aren't counted for themselves.
fn eval_tree<V: View>(expr: &Expr, view: &V, ticks: &mut Ticks) -> Result<Value, Fault>
    ensures value { result ≡ value_of (V.environment view.now) (expression_of expr.now) }
    ensures ticks { Within (nodes (expression_of expr.now)) ticks.old ticks.new }
{
    ticks.tick();
    match expr {
        Expr::Literal(value) => Ok(*value),
        Expr::Variable(variable) => Ok(view.value_at(*variable)),
        Expr::StepActive(step) => Ok(Value::Bool(view.is_active(*step))),
        Expr::StepTime(step) => Ok(Value::Time(view.time_of(*step))),
        Expr::ActionQ => Ok(Value::Bool(view.q())),
        Expr::Not(operand) => Ok(Value::Bool(!eval_tree(operand, view, ticks)?.is_true())),
        Expr::Minus(var_type, operand) => {
            number::minus(*var_type, eval_tree(operand, view, ticks)?.number())
        }
        Expr::Binary(operator, var_type, left, right) => {
            let left = match leaf(left, view) {
                Some(value) => value,
                None => eval_tree(left, view, ticks)?,
            };
            let right = match leaf(right, view) {
                Some(value) => value,
                None => eval_tree(right, view, ticks)?,
            };
            operate(*operator, *var_type, left, right)
        }
    }
}

/// The value of an expression over a view, or its first fault: `DivZero` where `/` divides by zero, `Range` where a
/// result lies outside the range of its type. Operands are evaluated from left to right and always both, also those of
/// AND and OR (our choice). A tick is made for each node at most, and no memory is taken.
pub fn eval<V: View>(expr: &Expr, view: &V, ticks: &mut Ticks) -> Result<Value, Fault>
    ensures value { result ≡ value_of (V.environment view.now) (expression_of expr.now) }
    ensures ticks { Within (nodes (expression_of expr.now)) ticks.old ticks.new }
{
    match small(expr, view) {
        Some(answer) => {
            ticks.tick();
            answer
        }
        None => eval_tree(expr, view, ticks),
    }
}

// The number that is read with no operand to evaluate: of a literal, a variable or the time of a step.
#[inline(always)]
fn leaf_number<V: View>(expr: &Expr, view: &V) -> Option<i64>
    ensures { IfSome result (λ n. number_of (value_of (V.environment view.now) (expression_of expr.now)) ≡ Ok n) }
{
    match expr {
        Expr::Literal(value) => Some(value.number()),
        Expr::Variable(variable) => Some(view.value_at(*variable).number()),
        Expr::StepTime(step) => Some(view.time_of(*step)),
        Expr::StepActive(_) | Expr::ActionQ => None,
        Expr::Not(_) | Expr::Minus(_, _) | Expr::Binary(_, _, _, _) => None,
    }
}

// Whether an expression that asks for an order of two numbers holds, if both are read with no operand to evaluate.
#[inline(always)]
#[tactic(auto, using(crate::proofs::Orders::ordered))]
fn order<V: View>(expr: &Expr, view: &V) -> Option<bool>
    ensures value { IfSome result (λ holds. value_of (V.environment view.now) (expression_of expr.now) ≡ of_truth holds) }
    ensures nodes { IfSome result (λ _. 1 ≤ nodes (expression_of expr.now)) }
{
    if let Expr::Binary(operator, _, left, right) = expr {
        if let (Some(a), Some(b)) = (leaf_number(left, view), leaf_number(right, view)) {
            return match operator {
                Operator::Less => Some(a < b),
                Operator::Greater => Some(a > b),
                Operator::LessOrEqual => Some(a <= b),
                Operator::GreaterOrEqual => Some(a >= b),
                _ => None,
            };
        }
    }
    None
}

/// Whether an expression over a view is TRUE, or its first fault; a value that isn't of BOOL is not TRUE. Else as `eval`.
pub fn holds<V: View>(expr: &Expr, view: &V, ticks: &mut Ticks) -> Result<bool, Fault>
    ensures value { result ≡ truth_of (value_of (V.environment view.now) (expression_of expr.now)) }
    ensures ticks { Within (nodes (expression_of expr.now)) ticks.old ticks.new }
{
    match order(expr, view) {
        Some(holds) => {
            ticks.tick();
            Ok(holds)
        }
        None => Ok(eval(expr, view, ticks)?.is_true()),
    }
}
