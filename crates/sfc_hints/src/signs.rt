//! What mends signs, bytes and words that aren't of this language.

use crate::foreign::is_among;
use sfc_events::read_error::ReadErrorKind;
use sfc_places::marks::behind;

/// How often the two bytes stand there, one behind the other.
pub fn pairs(bytes: &[u8], first: u8, second: u8) -> usize {
    let mut count = 0usize;
    for at in 0..bytes.len() {
        if bytes.get(at) == Some(&first) && bytes.get(behind(at, 1)) == Some(&second) {
            count = count.saturating_add(1);
        }
    }
    count
}

/// What mends a sign that isn't one here, by the bytes from it on and the one before it.
pub fn sign_mending(before: Option<u8>, bytes: &[u8]) -> Option<&'static str> {
    match (before, bytes) {
        (_, [b'/', b'/' | b'*', ..]) | (Some(b'/'), [b'/', ..]) => {
            Some("a comment stands in (* *)")
        }
        (_, [b'*', b')', ..]) => Some("a comment in a comment ends both with its *)"),
        (_, [b'=', b'=', ..]) | (Some(b'='), [b'=', ..]) => Some("= compares, and := assigns"),
        (_, [b'&', b'&', ..]) | (Some(b'&'), [b'&', ..]) => Some("AND joins conditions"),
        (Some(b'='), [b'>', ..]) => Some(">= says that the left one is as great, or greater"),
        (Some(b'='), [b'<', ..]) => Some("<= says that the left one is as small, or smaller"),
        (Some(b'>'), [b'<', ..]) => Some("<> says that two are not equal"),
        _ => step_mending(before, bytes),
    }
}

// What mends += and ++, and what is like them.
fn step_mending(before: Option<u8>, bytes: &[u8]) -> Option<&'static str> {
    match (before, bytes) {
        (_, [b'+' | b'-', b'=', ..]) | (_, [b'+', b'+', ..]) | (Some(b'+'), [b'+', ..]) => {
            Some("a variable is named again: Parts := Parts + 1;")
        }
        (_, [b'-', b'-', b';' | b')', ..]) => Some(
            "a variable is named again: Parts := Parts - 1;",
        ),
        (_, [b'-', b'-', ..]) => Some("a comment stands in (* *)"),
        (Some(b'*'), [b'*', ..]) => Some("there is no power: a product serves, n * n"),
        _ => None,
    }
}

// What mends a sign of another language at which no token begins.
fn foreign_sign(sign: u8) -> Option<&'static str> {
    match sign {
        b'!' | b'~' => Some("NOT turns a condition round"),
        b'|' => Some("OR joins conditions"),
        b'\'' | b'"' | b'`' => Some("there are no texts in quotes"),
        b'[' | b']' => Some("there are no arrays: a variable for each place serves"),
        b'#' => Some("a comment stands in (* *)"),
        b'%' => Some("MOD is the remainder, and a location is written like %IX0.0 or %QW2"),
        b'^' => Some("there is no power: a product serves, n * n"),
        b'?' => Some("IF with ELSE chooses between two"),
        b'}' => Some("there are no braces: THEN begins what IF guards, and END_IF ends it"),
        b'@' | b'$' | b'\\' => Some("a name has letters, digits and single underscores"),
        _ => None,
    }
}

// What mends bytes at which no token begins.
fn byte_mending(bytes: &[u8]) -> Option<&'static str> {
    match bytes {
        [b'!', b'=', ..] => Some("<> says that two are not equal"),
        [b'(', b'*', ..] => Some("*) ends this comment, and stands nowhere behind it"),
        [b'{', ..] => Some("} ends this pragma, and stands nowhere behind it"),
        [first, ..] => foreign_sign(*first),
        [] => None,
    }
}

// Whether an underscore of the word stands at its end, or beside another one.
fn has_loose_underscore(word: &[u8]) -> bool {
    pairs(word, b'_', b'_') > 0 || word.last() == Some(&b'_')
}

// The word from its first letter on.
fn letters_of(word: &[u8]) -> &[u8] {
    for at in 0..word.len() {
        if let Some(rest) = word.get(at..) {
            if let [first, ..] = rest {
                if first.is_ascii_alphabetic() {
                    return rest;
                }
            }
        }
    }
    b""
}

// What mends a number that is none.
fn number_mending(word: &[u8]) -> Option<&'static str> {
    match word {
        [b'0', b'x' | b'X', ..] => Some("a number to the base 16 begins with 16#: 16#FF"),
        [b'0', b'b' | b'B', ..] => Some("a number to the base 2 begins with 2#: 2#1010"),
        _ if word.contains(&b'#') => {
            Some("the bases are 2, 8 and 16, and a digit is below its base: 2#101, 16#FF")
        }
        _ => match letters_of(word) {
            [] => Some("numbers are from -2147483648 to 2147483647"),
            letters if is_among("d h m s ms us ns", letters) => {
                Some("a time begins with T#: T#2s")
            }
            _ => Some("a name begins with a letter or an underscore"),
        },
    }
}

/// What mends a word, or a literal, that is none, by its bytes and by those from it on.
pub fn word_mending(kind: ReadErrorKind, word: &[u8], bytes: &[u8]) -> Option<&'static str> {
    match kind {
        ReadErrorKind::BadDuration => Some(
            "a duration has d, h, m, s and ms in this order, the last number maybe with a point, and nothing finer than 0.001ms: T#1m_30s, T#0.5ms",
        ),
        ReadErrorKind::BadNumber => number_mending(word),
        ReadErrorKind::NotAscii => Some(
            "a name has the letters A to Z, digits and underscores; other characters may stand in comments",
        ),
        ReadErrorKind::BadToken if has_loose_underscore(word) => {
            Some("an underscore stands alone, between letters and digits")
        }
        ReadErrorKind::BadToken => token_mending(word, bytes),
        _ => None,
    }
}

// What mends a word with a sign of numbers in it, that is none.
fn token_mending(word: &[u8], bytes: &[u8]) -> Option<&'static str> {
    match word.first() {
        Some(b'B' | b'b') if word.contains(&b'#') => {
            Some("the values of BOOL are FALSE, TRUE, BOOL#0 and BOOL#1")
        }
        Some(first) if first.is_ascii_alphabetic() && word.contains(&b'#') => {
            Some("before # stands T or TIME, INT, DINT, BOOL or a base: T#5s, INT#5, 16#FF")
        }
        _ => byte_mending(bytes),
    }
}
