//! Literals of a wanted type (2.2, 3.3.1).

ghost use Rattle.std.specs.Prelude.{Ok};
ghost use Rattle.sfc_check.specs.Checking as checking;
ghost use Rattle.sfc_check.specs.TypeFaults.{GivesExactly};

use crate::type_error::TypeError;
use sfc_base::value::Value;
use sfc_base::var_type::VarType;
use sfc_expr::number::in_type;
use sfc_text::tree::Literal;

/// The value of a literal as one of the wanted type: `WrongType` where it was written with another type, `LiteralRange`
/// where it doesn't fit. An integer without a type takes the wanted one; 0 and 1 are FALSE and TRUE.
pub fn check_literal(literal: Literal, wanted: VarType) -> Result<Value, TypeError>
    ensures { GivesExactly (λ x. x) result (checking.checked_literal literal wanted) }
{
    match literal {
        Literal::Integer(n) => check_integer(n, wanted),
        Literal::Int(n) => check_number(VarType::Int, n, wanted),
        Literal::Dint(n) => check_number(VarType::Dint, n, wanted),
        Literal::Bool(truth) => {
            want(VarType::Bool, wanted)?;
            Ok(Value::Bool(truth))
        }
        Literal::Time(time) => check_number(VarType::Time, time.micros(), wanted),
    }
}

/// That a type is the wanted one.
pub(crate) fn want(found: VarType, wanted: VarType) -> Result<(), TypeError>
    ensures { GivesExactly (λ x. x) result (checking.if_wanted found wanted (Ok tt)) }
{
    if found != wanted {
        return Err(TypeError::WrongType);
    }
    Ok(())
}

// The value of a number that was written with a type, which has to be the wanted one.
fn check_number(written: VarType, n: i64, wanted: VarType) -> Result<Value, TypeError>
    ensures { GivesExactly (λ x. x) result (checking.if_wanted written wanted (checking.fitting written n)) }
{
    want(written, wanted)?;
    fitting(written, n)
}

// The value of an integer without a type as one of the wanted type.
fn check_integer(n: i64, wanted: VarType) -> Result<Value, TypeError>
    ensures { GivesExactly (λ x. x) result (checking.checked_integer n wanted) }
{
    match wanted {
        VarType::Bool if n == 0 => Ok(Value::Bool(false)),
        VarType::Bool if n == 1 => Ok(Value::Bool(true)),
        VarType::Bool => Err(TypeError::LiteralRange),
        VarType::Int | VarType::Dint => fitting(wanted, n),
        VarType::Time => Err(TypeError::WrongType),
    }
}

// The number as a value of the type, which it has to fit.
fn fitting(var_type: VarType, n: i64) -> Result<Value, TypeError>
    ensures { GivesExactly (λ x. x) result (checking.fitting var_type n) }
{
    match in_type(var_type, n) {
        Ok(value) => Ok(value),
        Err(_) => Err(TypeError::LiteralRange),
    }
}
