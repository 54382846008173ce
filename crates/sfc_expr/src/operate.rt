//! Operators on values (3.3.1).

ghost use Rattle.std.specs.Prelude.{◌≡◌};
ghost use Rattle.sfc_expr.specs.Meaning.{are_equal, operated};

use crate::fault::Fault;
use crate::number;
use crate::operator::Operator;
use sfc_base::value::Value;
use sfc_base::var_type::VarType;

// The value of `left operator right`, both of this type.
#[inline(always)]
pub(crate) fn operate(
    operator: Operator,
    var_type: VarType,
    left: Value,
    right: Value,
) -> Result<Value, Fault>
    ensures { result ≡ operated operator var_type left right }
{
    let (a, b) = (left.number(), right.number());
    match operator {
        Operator::Or => Ok(Value::Bool(left.is_true() || right.is_true())),
        Operator::Xor => Ok(Value::Bool(left.is_true() ^ right.is_true())),
        Operator::And => Ok(Value::Bool(left.is_true() && right.is_true())),
        Operator::Equal => Ok(Value::Bool(are_equal(var_type, left, right))),
        Operator::NotEqual => Ok(Value::Bool(!are_equal(var_type, left, right))),
        Operator::Less => Ok(Value::Bool(a < b)),
        Operator::Greater => Ok(Value::Bool(a > b)),
        Operator::LessOrEqual => Ok(Value::Bool(a <= b)),
        Operator::GreaterOrEqual => Ok(Value::Bool(a >= b)),
        Operator::Add => number::add(var_type, a, b),
        Operator::Subtract => number::subtract(var_type, a, b),
        Operator::Multiply => number::multiply(var_type, a, b),
        Operator::Divide => number::divide(var_type, a, b),
        Operator::Modulo => number::modulo(var_type, a, b),
    }
}

// Whether two values of this type are equal.
fn are_equal(var_type: VarType, left: Value, right: Value) -> bool
    ensures { result ≡ are_equal var_type left right }
{
    match var_type {
        VarType::Bool => left.is_true() == right.is_true(),
        VarType::Int | VarType::Dint | VarType::Time => left.number() == right.number(),
    }
}
