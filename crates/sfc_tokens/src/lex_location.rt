//! Locations as they are written (2.4.1.1).

ghost use Rattle.std.specs.Prelude.{◌≡◌, ◌^◌, ◌≤◌, Option, Some, None, IfOk};
ghost use Rattle.sfc_base.specs.Locations as locations;
ghost use Rattle.sfc_tokens.specs.Lexing.Locations as lex;

use crate::number::integer;
use sfc_base::items::Items;
use sfc_base::location::{Area, Location, Size};
use sfc_base::run::{Alphabet, run};
use std::alloc::{AllocError, Global};

/// How many numbers a location may have (our choice).
const NUMBERS: u8 = 8;

// The area that the letter stands for.
fn area_of(byte: u8) -> Option<Area>
    ensures { result ≡ locations.area_of byte }
{
    match byte.to_ascii_uppercase() {
        b'I' => Some(Area::Input),
        b'Q' => Some(Area::Output),
        b'M' => Some(Area::Memory),
        _ => None,
    }
}

// The size that the letter stands for.
fn size_of(byte: u8) -> Option<Size>
    ensures { result ≡ locations.size_of byte }
{
    match byte.to_ascii_uppercase() {
        b'X' => Some(Size::Bit),
        b'B' => Some(Size::Byte),
        b'W' => Some(Size::Word),
        b'D' => Some(Size::DoubleWord),
        b'L' => Some(Size::LongWord),
        _ => None,
    }
}

// The size in front of the numbers, which is a bit where no letter stands, and the numbers.
fn size_at(text: &[u8]) -> (Size, &[u8])
    ensures { (result.0, result.1.now) ≡ lex.size_at text.now }
{
    match text {
        [letter, inner @ ..] => match size_of(*letter) {
            Some(size) => (size, inner),
            None => (Size::Bit, text),
        },
        [] => (Size::Bit, text),
    }
}

// The integer at the front, and what follows it.
fn number_at(text: &[u8]) -> Option<(u32, &[u8])>
    ensures { lex.view_number result ≡ lex.number_at text.now }
{
    let (digits, rest) = run(Alphabet::Figures, text);
    let number = integer(10, 0xffff_ffff, digits)?;
    Some((number as u32, rest))
}

// From one to eight integers joined by points.
#[tactic(auto, unfolding(crate::specs::Lexing::Locations::numbers))]
fn numbers(alloc: Global, text: &[u8]) -> Result<Option<Vec<u32>>, AllocError>
    ensures { IfOk result (λ found. lex.numbers 8 text.now ≡ lex.option_items (λ v. v.items) found) }
{
    let mut numbers = Vec::new(alloc);
    let mut rest = text;
    let mut left = NUMBERS;
    'all: while left > 0 {
        let Some((number, behind)) = number_at(rest) else {
            return Ok(None);
        };
        numbers.push(number)?;
        let Some((point, further)) = behind.split_first() else {
            return Ok(Some(numbers));
        };
        if *point != b'.' {
            return Ok(None);
        }
        rest = further;
        left -= 1;
    }
    Ok(None)
}

/// The location that the text behind `%` is, if it is one. The one error is that memory was refused.
#[tactic(auto, unfolding(crate::specs::Lexing::Locations::location), using(crate::proofs::LocationProofs::counted))]
pub fn location(alloc: Global, text: &[u8]) -> Result<Option<Location>, AllocError>
    ensures { IfOk result (λ found. lex.location text.now ≡ found) }
{
    let [letter, behind @ ..] = text else {
        return Ok(None);
    };
    let Some(area) = area_of(*letter) else {
        return Ok(None);
    };
    let (size, digits) = size_at(behind);
    let Some(numbers) = numbers(alloc, digits)? else {
        return Ok(None);
    };
    Ok(Some(Location::new(area, size, Items::from_vec(numbers))))
}
