//! Values, and what is found, as the numbers that C has for them.

ghost use Rattle.std.specs.Prelude.{◌≡◌};
ghost use Rattle.sfc_c.specs.Codes as codes;
ghost use Rattle.sfc_c.specs.Found.{number_of_place, number_of_program, number_of_task, number_of_variable};

use crate::status::UNKNOWN;
use sfc_base::ids::{ProgId, TaskId, VarId};
use sfc_base::value::Value;
use sfc_base::var_type::VarType;

/// 1 for true, 0 for false.
pub fn flag(b: bool) -> i32
    ensures { result ≡ codes.flag b }
{
    if b { 1 } else { 0 }
}

/// BOOL as 0 or 1, and each other type as its number, a TIME in microseconds.
pub fn told(value: Value) -> i64
    ensures { result ≡ codes.told value }
{
    match value {
        Value::Bool(false) => 0,
        Value::Bool(true) => 1,
        Value::Int(n) => i64::from(n),
        Value::Dint(n) => i64::from(n),
        Value::Time(t) => t,
    }
}

/// The value of this type that the number is told as, if there is one.
pub fn value_of_number(var_type: Option<VarType>, n: i64) -> Option<Value>
    ensures { result ≡ codes.value_of_number var_type n }
{
    match var_type {
        None => Some(Value::Bool(false)),
        Some(VarType::Bool) => {
            if n < 0 || n > 1 {
                return None;
            }
            Some(Value::Bool(0 < n))
        }
        Some(VarType::Int) => {
            if n < -32_768 || n > 32_767 {
                return None;
            }
            Some(Value::Int(n as i16))
        }
        Some(VarType::Dint) => {
            if n < -2_147_483_648 || n > 2_147_483_647 {
                return None;
            }
            Some(Value::Dint(n as i32))
        }
        Some(VarType::Time) => {
            if n < -4_611_686_018_427_387_904 || n > 4_611_686_018_427_387_904 {
                return None;
            }
            Some(Value::Time(n))
        }
    }
}

/// The number of a variable that was found; -3 for none.
pub fn variable_number(found: Option<VarId>) -> i32
    ensures { result ≡ number_of_variable found }
{
    match found {
        Some(id) => i32::from(id.0),
        None => UNKNOWN,
    }
}

/// The number of a task that was found; -3 for none.
pub fn task_number(found: Option<TaskId>) -> i32
    ensures { result ≡ number_of_task found }
{
    match found {
        Some(task) => i32::from(task.0),
        None => UNKNOWN,
    }
}

/// The number of a program instance that was found; -3 for none.
pub fn program_number(found: Option<ProgId>) -> i32
    ensures { result ≡ number_of_program found }
{
    match found {
        Some(program) => i32::from(program.0),
        None => UNKNOWN,
    }
}

/// The number of a place that was found; -3 for none, and for one above 65,535.
pub fn place_number(found: Option<usize>) -> i32
    ensures { result ≡ number_of_place found }
{
    match found {
        Some(place) if place < 65_536 => place as i32,
        _ => UNKNOWN,
    }
}
