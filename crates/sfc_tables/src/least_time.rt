//! Conditions that ask whether a step's time has come to a limit.

ghost use Rattle.std.specs.Prelude.{◌≡◌, map, IfOk};
ghost use Rattle.sfc_expr.specs.Trees.{expression_of};
ghost use Rattle.sfc_tables.specs.LeastTimes as least_times;

use sfc_base::references::StepId;
use sfc_base::value::Value;
use sfc_expr::expr::Expr;
use sfc_expr::operator::Operator;
use sfc_plant::chart::Transition;
use std::alloc::{AllocError, Global};

/// That the time of a step is at least so many microseconds (2.6.2).
#[derive(Clone, Copy, Debug, PartialEq, Eq)]
pub struct LeastTime {
    pub step: StepId,
    pub micros: i64,
}

// That the time of the step is at least what this expression says, where that is a TIME.
fn least_by(step: StepId, limit: &Expr) -> Option<LeastTime>
    ensures { result ≡ least_times.least_by step (expression_of limit.now) }
{
    match limit {
        Expr::Literal(Value::Time(micros)) => Some(LeastTime {
            step,
            micros: *micros,
        }),
        _ => None,
    }
}

// The same of what is asked of the left operand by the right one.
fn least_between(left: &Expr, right: &Expr) -> Option<LeastTime>
    ensures { result ≡ least_times.least_between (expression_of left.now) (expression_of right.now) }
{
    match left {
        Expr::StepTime(step) => least_by(*step, right),
        _ => None,
    }
}

// The least time for which the condition asks, if it asks for that alone.
fn least_time_of(condition: &Expr) -> Option<LeastTime>
    ensures { result ≡ least_times.least_time_of (expression_of condition.now) }
{
    match condition {
        Expr::Binary(Operator::GreaterOrEqual, _, left, right) => least_between(left, right),
        _ => None,
    }
}

/// Of each of these transitions the least time for which its condition asks, if it asks for that alone. The one error is that
/// memory was refused.
pub fn list_least_times(
    alloc: Global,
    transitions: &[Transition],
) -> Result<Vec<Option<LeastTime>>, AllocError>
    ensures { IfOk result (λ times. times.items ≡ map (λ transition. least_times.least_time_of transition.condition) transitions.now) }
{
    transitions
        .iter()
        .map(|transition| least_time_of(transition.condition.expr()))
        .collect(alloc)
}
