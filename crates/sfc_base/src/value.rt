//! Values of variables and expressions (2.3.1).

ghost use Rattle.std.specs.Prelude.{◌≡◌};
ghost use Rattle.sfc_base.specs.Values as values;

use crate::var_type::VarType;

/// A value.
#[derive(Clone, Copy, Debug, PartialEq, Eq)]
pub enum Value {
    /// FALSE or TRUE.
    Bool(bool),
    /// An INT, of 16 bits with a sign.
    Int(i16),
    /// A DINT, of 32 bits with a sign.
    Dint(i32),
    /// A TIME in microseconds, from -2^62 to 2^62 (our choice of range). No operator gives one that lies outside.
    Time(i64),
}

impl Value {
    /// The type of the value.
    pub fn var_type(self) -> VarType
        ensures { result ≡ values.type_of self }
    {
        match self {
            Value::Bool(_) => VarType::Bool,
            Value::Int(_) => VarType::Int,
            Value::Dint(_) => VarType::Dint,
            Value::Time(_) => VarType::Time,
        }
    }

    /// Whether the value is TRUE.
    pub fn is_true(self) -> bool
        ensures { result ≡ values.truth self }
    {
        matches!(self, Value::Bool(true))
    }

    /// The number that the value is, a TIME in microseconds; 0 for a BOOL, which is none.
    pub fn number(self) -> i64
        ensures { result ≡ values.number self }
    {
        match self {
            Value::Bool(_) => 0,
            Value::Int(n) => i64::from(n),
            Value::Dint(n) => i64::from(n),
            Value::Time(t) => t,
        }
    }
}

/// What a variable without an initial value begins with: FALSE, 0 or `T#0s` (2.4.2).
pub fn default_value(var_type: VarType) -> Value
    ensures { result ≡ values.default_value var_type }
{
    match var_type {
        VarType::Bool => Value::Bool(false),
        VarType::Int => Value::Int(0),
        VarType::Dint => Value::Dint(0),
        VarType::Time => Value::Time(0),
    }
}
