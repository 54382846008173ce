//! Values that are always the same, whatever the variables are (2.3.1, 3.3.1).

use sfc_base::value::Value;
use sfc_base::var_type::VarType;
use sfc_expr::expr::Expr;
use sfc_expr::operator::Operator;

/// The greatest magnitude of a TIME, in microseconds.
const TIME: i64 = 4_611_686_018_427_387_904;

// The numbers from one up to another one.
#[derive(Clone, Copy)]
struct Range {
    low: i64,
    high: i64,
}

// The numbers of a type.
fn range_of_type(var_type: VarType) -> Range {
    let (low, high) = match var_type {
        VarType::Bool => (0, 1),
        VarType::Int => (-32_768, 32_767),
        VarType::Dint => (-2_147_483_648, 2_147_483_647),
        VarType::Time => (-TIME, TIME),
    };
    Range { low, high }
}

// The number that a value is; of a BOOL 0 and 1.
fn number_of(value: Value) -> i64 {
    match value {
        Value::Bool(bit) => i64::from(bit),
        _ => value.number(),
    }
}

// The numbers that an operand of this type can be.
fn range_of(expr: &Expr, var_type: VarType) -> Range {
    match expr {
        Expr::Literal(value) => Range {
            low: number_of(*value),
            high: number_of(*value),
        },
        Expr::StepTime(_) => Range { low: 0, high: TIME },
        _ => range_of_type(var_type),
    }
}

// Whether the first is less than the second, where that is so or not so for all.
fn is_less(a: Range, b: Range) -> Option<bool> {
    if a.high < b.low {
        Some(true)
    } else if a.low >= b.high {
        Some(false)
    } else {
        None
    }
}

// Whether the two are equal, where that is so or not so for all.
fn is_equal(a: Range, b: Range) -> Option<bool> {
    if a.high < b.low || b.high < a.low {
        Some(false)
    } else if a.low == a.high && b.low == b.high {
        Some(true)
    } else {
        None
    }
}

/// What a comparison of two operands of this type gives, where that is always the same; None of another operator.
pub fn compared(operator: Operator, var_type: VarType, left: &Expr, right: &Expr) -> Option<bool> {
    let (a, b) = (range_of(left, var_type), range_of(right, var_type));
    match operator {
        Operator::Less => is_less(a, b),
        Operator::Greater => is_less(b, a),
        Operator::GreaterOrEqual => Some(!is_less(a, b)?),
        Operator::LessOrEqual => Some(!is_less(b, a)?),
        Operator::Equal => is_equal(a, b),
        Operator::NotEqual => Some(!is_equal(a, b)?),
        _ => None,
    }
}

// What an operator on two BOOLs gives, of which one or both are known.
fn joined(operator: Operator, left: Option<bool>, right: Option<bool>) -> Option<bool> {
    match (operator, left, right) {
        (Operator::And, Some(false), _) | (Operator::And, _, Some(false)) => Some(false),
        (Operator::Or, Some(true), _) | (Operator::Or, _, Some(true)) => Some(true),
        (Operator::And, Some(true), Some(true)) => Some(true),
        (Operator::Or, Some(false), Some(false)) => Some(false),
        (Operator::Xor, Some(left), Some(right)) => Some(left != right),
        _ => None,
    }
}

/// What a BOOL expression gives, where that is always the same as it is written.
pub fn constant(expr: &Expr) -> Option<bool> {
    match expr {
        Expr::Literal(Value::Bool(bit)) => Some(*bit),
        Expr::Not(inner) => Some(!constant(inner)?),
        Expr::Binary(operator, VarType::Bool, left, right) => {
            joined(*operator, constant(left), constant(right))
        }
        Expr::Binary(operator, var_type, left, right) => {
            compared(*operator, *var_type, left, right)
        }
        _ => None,
    }
}

/// Whether the expression is the number 0 as it is written.
pub fn is_zero(expr: &Expr) -> bool {
    match expr {
        Expr::Literal(Value::Bool(_)) => false,
        Expr::Literal(value) => value.number() == 0,
        _ => false,
    }
}
