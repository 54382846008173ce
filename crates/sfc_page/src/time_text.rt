//! Numbers and values of type TIME, written to a device.

ghost use Rattle.std.specs.Fmt.{decimal};
ghost use Rattle.sfc_base.specs.TimeText.{time_text};
ghost use Rattle.sfc_base.specs.Writing.{Writes};

use crate::digits::{NUMBER, put_number};
use crate::times;
use crate::times::TIME;
use sfc_base::write_fault::{WriteFault, put_all};
use std::io::Write;

/// Writes a number in decimal digits. It takes no memory. After a fault a front of them was written.
pub fn put_decimal<W: Write>(number: u64, writer: &mut W) -> Result<(), WriteFault>
    ensures { Writes (W.contents writer.old) (W.contents writer.new) result (decimal number) }
{
    let mut digits = [0; NUMBER];
    let count = put_number(&mut digits, 0, number);
    put_all(writer, &digits[..count])
}

/// Writes the text of so many microseconds, as `times` puts it. It takes no memory. After a fault a front of the text was written.
pub fn put_time<W: Write>(micros: i64, writer: &mut W) -> Result<(), WriteFault>
    ensures { Writes (W.contents writer.old) (W.contents writer.new) result (time_text micros) }
{
    let mut text = [0; TIME];
    let count = times::put_time(&mut text, 0, micros);
    put_all(writer, &text[..count])
}
