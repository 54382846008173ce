//! The lines of a head, and what they say.

ghost use Rattle.std.specs.Prelude.{◌≡◌, MatchOption, None, Some};
ghost use Rattle.sfc_frames.specs.Heads as heads;

use crate::frame_fault::Malformed;

/// The most bytes of a message.
pub const LONGEST: u64 = 16_777_216;

/// What a line of a head says.
#[derive(Clone, Copy, Debug, PartialEq, Eq)]
pub enum Field {
    /// How long the message is.
    Length(u64),
    /// Something else.
    Other,
    /// It should say how long the message is, and doesn't.
    Wrong(Malformed),
}

/// The bytes before the first LF, and those behind it; None where there is none.
#[tactic(auto, unfolding(crate::specs::Heads::line_of))]
pub fn line_of(bytes: &[u8]) -> Option<(&[u8], &[u8])>
    ensures { MatchOption result (heads.line_of bytes.now ≡ None) (λ parts. heads.line_of bytes.now ≡ Some (parts.0.now, parts.1.now)) }
{
    let mut count = 0;
    'all: for byte in bytes {
        if *byte == b'\n' {
            break;
        }
        count += 1;
    }
    let (line, behind) = bytes.split_at(count);
    match behind.split_first() {
        Some((_, rest)) => Some((line, rest)),
        None => None,
    }
}

/// Whether the line is empty, but for a CR.
pub fn is_end(line: &[u8]) -> bool
    ensures { result ≡ heads.is_end line.now }
{
    match line {
        [] => true,
        [only] => *only == b'\r',
        [_, _, ..] => false,
    }
}

// The letter as a small one.
fn small(byte: u8) -> u8
    ensures { result ≡ heads.small byte }
{
    if byte >= b'A' && byte <= b'Z' {
        byte + 32
    } else {
        byte
    }
}

// What stands behind a name of small letters, in any case of the letters.
fn behind_name<'a>(name: &[u8], line: &'a [u8]) -> Option<&'a [u8]>
    ensures { MatchOption result (heads.behind_name name.now line.now ≡ None) (λ rest. heads.behind_name name.now line.now ≡ Some rest.now) }
{
    let mut wanted = name;
    let mut rest = line;
    'letters: while let Some((letter, letters)) = wanted.split_first() {
        let (byte, behind) = rest.split_first()?;
        if small(*byte) != *letter {
            return None;
        }
        wanted = letters;
        rest = behind;
    }
    Some(rest)
}

// The value without the blanks in front of it.
fn without_blanks(value: &[u8]) -> &[u8]
    ensures { result.now ≡ heads.without_blanks value.now }
{
    let mut rest = value;
    'blanks: while let Some((byte, after)) = rest.split_first() {
        if *byte != b' ' {
            break;
        }
        rest = after;
    }
    rest
}

// The number with a digit behind it. What is above the most bytes of a message stays.
fn next_number(number: u64, digit: u8) -> u64
    ensures { result ≡ heads.next_number number digit }
{
    if number > LONGEST {
        number
    } else {
        number * 10 + u64::from(digit)
    }
}

// The number that digits say behind others, up to a CR at their end; None where one is no digit.
fn number_behind(before: u64, digits: &[u8]) -> Option<u64>
    ensures { result ≡ heads.number_behind before digits.now }
{
    let mut number = before;
    let mut rest = digits;
    'digits: while let Some((digit, behind)) = rest.split_first() {
        if *digit == b'\r' && behind.is_empty() {
            return Some(number);
        }
        if *digit < b'0' || *digit > b'9' {
            return None;
        }
        number = next_number(number, *digit - b'0');
        rest = behind;
    }
    Some(number)
}

// What a value says as a length.
fn length_of(value: &[u8]) -> Field
    ensures { result ≡ heads.length_of value.now }
{
    if is_end(value) {
        return Field::Wrong(Malformed::NotANumber);
    }
    match number_behind(0, value) {
        None => Field::Wrong(Malformed::NotANumber),
        Some(number) if number <= LONGEST => Field::Length(number),
        Some(_) => Field::Wrong(Malformed::MessageTooLong),
    }
}

/// What a line says.
pub fn field_of(line: &[u8]) -> Field
    ensures { result ≡ heads.field_of line.now }
{
    match behind_name(b"content-length:", line) {
        Some(value) => length_of(without_blanks(value)),
        None => Field::Other,
    }
}
