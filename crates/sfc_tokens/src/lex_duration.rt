//! Durations (B.1.2.3.1).

ghost use Rattle.std.specs.Prelude.{◌≡◌, ◌≤◌, ◌<◌, ◌*◌, ◌+◌, ◌^◌, ℕ, List, true, length, Option, Some, None, IfSome, MatchOption};
ghost use Rattle.sfc_tokens.specs.Lexing.Durations as lex;
ghost use Rattle.sfc_base.specs.Durations as durations;

use crate::number::{digit_of, integer};
use sfc_base::case::is_same_word;
use sfc_base::run::{Alphabet, run};
use sfc_base::unit::Unit;

/// The greatest magnitude of a TIME value, in microseconds (our choice).
pub const GREATEST: u64 = 0x4000_0000_0000_0000;

/// The units, falling.
const UNITS: [Unit; 5] = [
    Unit::Day,
    Unit::Hour,
    Unit::Minute,
    Unit::Second,
    Unit::Millisecond,
];

// Whether the word is digits with single underscores between them.
#[tactic(auto, unfolding(crate::specs::Lexing::Durations::are_digits))]
fn are_digits(word: &[u8]) -> bool
    ensures { result ≡ lex.are_digits true word.now }
{
    let mut is_wanted = true;
    let mut rest = word;
    'all: while let Some((byte, after)) = rest.split_first() {
        if !is_wanted && *byte == b'_' {
            is_wanted = true;
        } else {
            if digit_of(10, *byte).is_none() {
                return false;
            }
            is_wanted = false;
        }
        rest = after;
    }
    !is_wanted
}

// One more digit in front of the digits that are so many microseconds.
fn tenth_more(unit: u64, byte: u8, micros: u64) -> Option<u64>
    requires unit_small { unit ≤ 86400000000 }
    requires micros_small { micros ≤ unit }
    ensures value { result ≡ lex.tenth_more unit byte micros }
    ensures small { IfSome result (λ n. n ≤ unit) }
{
    if byte == b'_' {
        return Some(micros);
    }
    let digit = digit_of(10, byte)?;
    let sum = micros + u64::from(digit) * unit;
    if sum % 10 == 0 { Some(sum / 10) } else { None }
}

// What the digits behind a decimal point are, in microseconds, where the unit has so many.
#[tactic(auto, unfolding(crate::specs::Lexing::Durations::tenths))]
fn tenths(unit: u64, word: &[u8]) -> Option<u64>
    requires { unit ≤ 86400000000 }
    ensures { result ≡ lex.tenths unit 0 word.now }
{
    let mut micros = 0;
    let mut rest = word;
    'all: while let Some((byte, before)) = rest.split_last() {
        micros = tenth_more(unit, *byte, micros)?;
        rest = before;
    }
    Some(micros)
}

// A fraction of the unit: digits with single underscores, which are whole microseconds.
fn fraction(unit: u64, word: &[u8]) -> Option<u64>
    requires { unit ≤ 86400000000 }
    ensures { result ≡ lex.fraction unit word.now }
{
    if are_digits(word) {
        tenths(unit, word)
    } else {
        None
    }
}

// The number of a part, its fraction, its unit, and what follows.
#[tactic(auto, unfolding(crate::specs::Lexing::Durations::split_part))]
fn split_part(word: &[u8]) -> (&[u8], &[u8], &[u8], &[u8])
    ensures { (result.0.now, result.1.now, result.2.now, result.3.now) ≡ lex.split_part word.now }
{
    let (number, behind) = run(Alphabet::Figures, word);
    let (fraction, unit_and_rest) = run(Alphabet::Fraction, behind);
    let (unit, rest) = run(Alphabet::Letters, unit_and_rest);
    (number, fraction, unit, rest)
}

// The number of a part, in microseconds, if it is not over the greatest.
fn whole(unit: Unit, number: &[u8]) -> Option<u64>
    ensures { result ≡ lex.whole unit number.now }
{
    let micros = unit.micros();
    let count = integer(10, GREATEST / micros, number)?;
    Some(count * micros)
}

// Behind a part an underscore may stand.
fn unspaced(rest: &[u8]) -> &[u8]
    ensures { result.now ≡ lex.unspaced rest.now }
{
    match rest {
        [b'_', inner @ ..] => inner,
        _ => rest,
    }
}

// The fraction of the last part.
fn point(unit: Unit, text: &[u8], rest: &[u8]) -> Option<u64>
    ensures { result ≡ lex.point unit text.now rest.now }
{
    match text {
        [b'.', digits @ ..] if rest.is_empty() => fraction(unit.micros(), digits),
        _ => None,
    }
}

// The greatest of these units that is spelled so, and the smaller ones.
#[tactic(auto, unfolding(crate::specs::Lexing::Durations::unit_among))]
fn unit_among<'a>(units: &'a [Unit], letters: &[u8]) -> Option<(Unit, &'a [Unit])>
    ensures { MatchOption result (lex.unit_among units.now letters.now ≡ None)
        (λ u. (lex.unit_among units.now letters.now ≡ Some (u.0, u.1.now)) × (length u.1.now < length units.now)) }
{
    let [unit, smaller @ ..] = units else {
        return None;
    };
    if is_same_word(letters, unit.spelling()) {
        Some((*unit, smaller))
    } else {
        unit_among(smaller, letters)
    }
}

// A part: its number, its fraction, and the parts of smaller units that follow, in microseconds.
#[cycle(parts)]
fn part(unit: Unit, smaller: &[Unit], number: &[u8], fraction: &[u8], rest: &[u8]) -> Option<u64>
    ensures value { (letters : List ℕ) →
        result ≡ lex.part unit (number.now, fraction.now, letters, rest.now) (lex.interval smaller.now) }
    ensures fits { IfSome result (λ v. v ≤ durations.greatest) }
{
    let count = whole(unit, number)?;
    let behind = if !fraction.is_empty() {
        point(unit, fraction, rest)?
    } else if rest.is_empty() {
        0
    } else {
        parts(smaller, unspaced(rest))?
    };
    let micros = count.checked_add(behind)?;
    if micros <= GREATEST {
        Some(micros)
    } else {
        None
    }
}

// The parts of the units, in microseconds.
#[cycle(parts)]
fn parts(units: &[Unit], word: &[u8]) -> Option<u64>
    ensures value { result ≡ lex.interval units.now word.now }
    ensures fits { IfSome result (λ v. v ≤ durations.greatest) }
{
    let (number, fraction, letters, rest) = split_part(word);
    match unit_among(units, letters) {
        Some((unit, smaller)) => part(unit, smaller, number, fraction, rest),
        None => None,
    }
}

/// The duration that the word is, without `T#` and sign, in microseconds: parts in falling order of unit, exactly,
/// and not over 2^62.
pub fn interval(word: &[u8]) -> Option<u64>
    ensures value { result ≡ lex.interval durations.units word.now }
    ensures fits { IfSome result (λ v. v ≤ durations.greatest) }
{
    parts(&UNITS, word)
}
