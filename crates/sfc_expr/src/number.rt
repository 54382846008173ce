//! Arithmetic within the range of a type (3.3.1, 2.3.1).

ghost use Rattle.std.specs.Prelude.{◌≡◌, ◌≢◌, FitsSigned};
ghost use Rattle.std.specs.Prelude.{ℤ, pos, ◌+ℤ◌, ◌-ℤ◌, ◌*ℤ◌, neg_ℤ, int_div};
ghost use Rattle.std.specs.Option.{SomeIff};
ghost use Rattle.std.specs.Int.{w64};
ghost use Rattle.sfc_expr.specs.Meaning.{in_type, quotient, remainder};

use crate::fault::Fault;
use sfc_base::value::Value;
use sfc_base::var_type::VarType;

// The ends of INT, DINT and TIME (2.3.1; our choice for TIME).
const INT_MIN: i64 = -0x8000;

const INT_MAX: i64 = 0x7FFF;

const DINT_MIN: i64 = -0x8000_0000;

const DINT_MAX: i64 = 0x7FFF_FFFF;

const TIME_MIN: i64 = -0x4000_0000_0000_0000;

const TIME_MAX: i64 = 0x4000_0000_0000_0000;

// The sum as a value of the type.
pub(crate) fn add(var_type: VarType, left: i64, right: i64) -> Result<Value, Fault>
    ensures { result ≡ in_type var_type (left +ℤ right) }
{
    fit(var_type, left.checked_add(right))
}

// The difference as a value of the type.
pub(crate) fn subtract(var_type: VarType, left: i64, right: i64) -> Result<Value, Fault>
    ensures { result ≡ in_type var_type (left -ℤ right) }
{
    fit(var_type, left.checked_sub(right))
}

// The product as a value of the type.
pub(crate) fn multiply(var_type: VarType, left: i64, right: i64) -> Result<Value, Fault>
    ensures { result ≡ in_type var_type (left *ℤ right) }
{
    fit(var_type, left.checked_mul(right))
}

// The quotient, towards zero, as a value of the type.
#[tactic(auto, using(crate::proofs::Division::division))]
pub(crate) fn divide(var_type: VarType, left: i64, right: i64) -> Result<Value, Fault>
    ensures { result ≡ quotient var_type left right }
{
    if right == 0 {
        return Err(Fault::DivZero);
    }
    fit(var_type, checked_quotient(left, right))
}

// The quotient, towards zero, where it fits into 64 bits.
#[tactic(auto, using(crate::proofs::Division::quotients))]
fn checked_quotient(left: i64, right: i64) -> Option<i64>
    requires { right ≢ pos 0 }
    ensures { SomeIff result (FitsSigned w64 (int_div left right)) (int_div left right) }
{
    left.checked_div(right)
}

// What the division leaves, with the sign of the left operand, as a value of the type; by zero 0 (our choice).
#[tactic(auto, using(crate::proofs::Division::division))]
pub(crate) fn modulo(var_type: VarType, left: i64, right: i64) -> Result<Value, Fault>
    ensures { result ≡ remainder var_type left right }
{
    if right == 0 {
        return in_type(var_type, 0);
    }
    in_type(var_type, left.wrapping_rem(right))
}

// The number with the other sign as a value of the type.
pub(crate) fn minus(var_type: VarType, operand: i64) -> Result<Value, Fault>
    ensures { result ≡ in_type var_type (neg_ℤ operand) }
{
    fit(var_type, operand.checked_neg())
}

// A result that was computed, or `None` where it does not even fit into 64 bits.
fn fit(var_type: VarType, computed: Option<i64>) -> Result<Value, Fault>
    ensures { (n : ℤ) → SomeIff computed (FitsSigned w64 n) n → result ≡ in_type var_type n }
{
    match computed {
        Some(n) => in_type(var_type, n),
        None => Err(Fault::Range),
    }
}

// The number as a value of the type, or the fault Range.
pub fn in_type(var_type: VarType, n: i64) -> Result<Value, Fault>
    ensures { result ≡ in_type var_type n }
{
    match var_type {
        VarType::Int if (INT_MIN..=INT_MAX).contains(&n) => Ok(Value::Int(n as i16)),
        VarType::Dint if (DINT_MIN..=DINT_MAX).contains(&n) => Ok(Value::Dint(n as i32)),
        VarType::Time if (TIME_MIN..=TIME_MAX).contains(&n) => Ok(Value::Time(n)),
        VarType::Bool | VarType::Int | VarType::Dint | VarType::Time => Err(Fault::Range),
    }
}
