//! Pieces of text, put at the end of a buffer.

ghost use Rattle.std.specs.Prelude.{◌≡◌, ◌++◌, OnOk};
ghost use Rattle.std.specs.Fmt.{decimal, signed_decimal};
ghost use Rattle.sfc_base.specs.TimeText.{time_text};
ghost use Rattle.sfc_page.specs.Values.{value_text as text_of_value};

use crate::digits::{NUMBER, put_number};
use crate::times::{TIME, put_time};
use sfc_base::value::Value;
use std::alloc::AllocError;

/// Puts the bytes at the end. The one error is that memory was refused; then a front of it may stand there.
pub fn append(out: &mut Vec<u8>, bytes: &[u8]) -> Result<(), AllocError>
    ensures { OnOk result (out.new.items ≡ out.old.items ++ bytes.now) }
{
    out.extend_from_slice(bytes)?;
    Ok(())
}

/// Puts a number in decimal digits at the end. The one error is that memory was refused; then a front of it may stand there.
pub fn append_number(out: &mut Vec<u8>, number: u64) -> Result<(), AllocError>
    ensures { OnOk result (out.new.items ≡ out.old.items ++ decimal number) }
{
    let mut digits = [0; NUMBER];
    let count = put_number(&mut digits, 0, number);
    append(out, &digits[..count])
}

/// Puts the TIME text of so many microseconds at the end. The one error is that memory was refused; then a front of it may
/// stand there.
pub fn append_time(out: &mut Vec<u8>, micros: i64) -> Result<(), AllocError>
    ensures { OnOk result (out.new.items ≡ out.old.items ++ time_text micros) }
{
    let mut text = [0; TIME];
    let count = put_time(&mut text, 0, micros);
    append(out, &text[..count])
}

/// Puts a number in decimal digits at the end, with a minus below 0. The one error is that memory was refused; then a front of it
/// may stand there.
pub fn append_signed(out: &mut Vec<u8>, number: i64) -> Result<(), AllocError>
    ensures { OnOk result (out.new.items ≡ out.old.items ++ signed_decimal number) }
{
    if number < 0 {
        append(out, b"-")?;
    }
    append_number(out, number.unsigned_abs())
}

/// Puts a value at the end: TRUE, FALSE, decimal digits, or the TIME text. The one error is that memory was refused; then a
/// front of it may stand there.
pub fn append_value(out: &mut Vec<u8>, value: Value) -> Result<(), AllocError>
    ensures { OnOk result (out.new.items ≡ out.old.items ++ text_of_value value) }
{
    match value {
        Value::Bool(true) => append(out, b"TRUE"),
        Value::Bool(false) => append(out, b"FALSE"),
        Value::Int(number) => append_signed(out, i64::from(number)),
        Value::Dint(number) => append_signed(out, i64::from(number)),
        Value::Time(micros) => append_time(out, micros),
    }
}
