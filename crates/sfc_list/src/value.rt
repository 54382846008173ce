//! The text of types, of values as literals with their types (2.2), and of locations (2.4.1.1).

ghost use Rattle.std.specs.Prelude.{◌≡◌, flat_map};
ghost use Rattle.std.specs.Fmt.{signed_decimal};
ghost use Rattle.sfc_base.specs.LocationText as locations;
ghost use Rattle.sfc_list.specs.Values as text;
ghost use Rattle.sfc_list.specs.Private.Sinking.{Puts};

use crate::sink::Sink;
use sfc_base::location::{Area, Location, Size};
use sfc_base::value::Value;
use sfc_base::var_type::VarType;
use std::io::Write;

/// The word of a type.
pub fn type_word(var_type: VarType) -> &'static [u8]
    ensures { result.now ≡ text.type_text var_type }
{
    match var_type {
        VarType::Bool => b"BOOL",
        VarType::Int => b"INT",
        VarType::Dint => b"DINT",
        VarType::Time => b"TIME",
    }
}

// Writes a number in decimal digits, with a minus before them where it is negative.
#[tactic(auto, using(crate::proofs::Numbers::negative_text, crate::proofs::Numbers::other_text, crate::proofs::Sunk::puts_then))]
fn put_signed<W: Write>(number: i64, out: &mut Sink<'_, W>)
    ensures { Puts W.contents out.old out.new (signed_decimal number) }
{
    if number < 0 {
        out.put(b"-");
    }
    out.put_number(number.unsigned_abs());
}

/// Writes a value as a literal with its type.
#[tactic(auto, using(crate::proofs::Sunk::puts_then))]
pub fn put_literal<W: Write>(value: Value, out: &mut Sink<'_, W>)
    ensures { Puts W.contents out.old out.new (text.literal_text value) }
{
    match value {
        Value::Bool(false) => out.put(b"FALSE"),
        Value::Bool(true) => out.put(b"TRUE"),
        Value::Int(number) => {
            out.put(b"INT#");
            put_signed(i64::from(number), out);
        }
        Value::Dint(number) => {
            out.put(b"DINT#");
            put_signed(i64::from(number), out);
        }
        Value::Time(micros) => out.put_micros(micros),
    }
}

// The letter of an area.
fn area_letter(area: Area) -> &'static [u8]
    ensures { result.now ≡ locations.area_text area }
{
    match area {
        Area::Input => b"I",
        Area::Output => b"Q",
        Area::Memory => b"M",
    }
}

// The letter of a size.
fn size_letter(size: Size) -> &'static [u8]
    ensures { result.now ≡ locations.size_text size }
{
    match size {
        Size::Bit => b"X",
        Size::Byte => b"B",
        Size::Word => b"W",
        Size::DoubleWord => b"D",
        Size::LongWord => b"L",
    }
}

// Writes the number behind a point.
#[tactic(auto, using(crate::proofs::Sunk::puts_then))]
fn put_behind_point<W: Write>(number: u32, out: &mut Sink<'_, W>)
    ensures { Puts W.contents out.old out.new (locations.behind_point number) }
{
    out.put(b".");
    out.put_number(u64::from(number));
}

// Writes the numbers, each behind a point.
#[tactic(auto, using(crate::proofs::Sunk::puts_nothing))]
fn put_behind_points<W: Write>(numbers: &[u32], out: &mut Sink<'_, W>)
    ensures { Puts W.contents out.old out.new (flat_map locations.behind_point numbers.now) }
{
    for number in numbers {
        put_behind_point(*number, out);
    }
}

// Writes the numbers, parted by points.
#[tactic(auto, using(crate::proofs::Sunk::puts_then, crate::proofs::Sunk::puts_nothing))]
fn put_numbers<W: Write>(numbers: &[u32], out: &mut Sink<'_, W>)
    ensures { Puts W.contents out.old out.new (locations.numbers_text numbers.now) }
{
    if let Some((number, others)) = numbers.split_first() {
        out.put_number(u64::from(*number));
        put_behind_points(others, out);
    }
}

/// Writes a location with the letter of its size.
#[tactic(auto, using(crate::proofs::Sunk::puts_then))]
pub fn put_location<W: Write>(location: &Location, out: &mut Sink<'_, W>)
    ensures { Puts W.contents out.old out.new (locations.location_text location.now) }
{
    out.put(b"%");
    out.put(area_letter(location.area()));
    out.put(size_letter(location.size()));
    put_numbers(location.numbers(), out);
}
