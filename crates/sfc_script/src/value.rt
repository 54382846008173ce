//! Values of variables, as words.

ghost use Rattle.std.specs.Prelude.{◌≡◌};
ghost use Rattle.sfc_script.specs.Values as values;

use crate::number::dint;
use sfc_base::case::is_same_word;
use sfc_base::value::Value;
use sfc_base::var_type::VarType;
use sfc_tokens::duration::duration;

// The value that a number is for a variable of this type: a DINT where it doesn't fit.
fn value_of_number(var_type: Option<VarType>, number: i32) -> Value
    ensures { result ≡ values.value_of_number var_type number }
{
    match (var_type, number) {
        (Some(VarType::Bool), 0) => Value::Bool(false),
        (Some(VarType::Bool), 1) => Value::Bool(true),
        (Some(VarType::Int), -32_768..=32_767) => Value::Int(number as i16),
        _ => Value::Dint(number),
    }
}

/// The value that a word is for a variable of this type: TRUE, FALSE, a duration such as `T#10ms`, or a decimal number
/// with a minus or without, which is a DINT where it doesn't fit the type. None where it is none of these, and for a
/// number out of the range of DINT. It takes no memory.
pub fn value_of_word(var_type: Option<VarType>, word: &[u8]) -> Option<Value>
    ensures { result ≡ values.value_of_word var_type word.now }
{
    if is_same_word(word, b"TRUE") {
        return Some(Value::Bool(true));
    }
    if is_same_word(word, b"FALSE") {
        return Some(Value::Bool(false));
    }
    if let Some(micros) = duration(word) {
        return Some(Value::Time(micros));
    }
    match dint(word) {
        Some(number) => Some(value_of_number(var_type, number)),
        None => None,
    }
}
