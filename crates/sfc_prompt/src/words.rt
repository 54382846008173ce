//! Words of a line.

ghost use Rattle.std.specs.Prelude.{◌≡◌};
ghost use Rattle.sfc_prompt.specs.Words as words;

use crate::sfc_script::split::{is_blank, only_word, split_line};
use sfc_base::case::is_same_word;

// Whether no text ends with the byte: a blank, or a CR.
fn is_ending(byte: u8) -> bool
    ensures { result ≡ words.is_ending byte }
{
    is_blank(byte) || byte == b'\r'
}

/// The bytes before the first LF.
pub fn before_lf(bytes: &[u8]) -> &[u8]
    ensures { result.now ≡ words.before_lf bytes.now }
{
    let (line, _) = split_line(bytes);
    line
}

/// What stands from the first word on; nothing where there are no words.
pub fn from_word(text: &[u8]) -> &[u8]
    ensures { result.now ≡ words.from_word text.now }
{
    let mut rest = text;
    'blanks: while let Some((byte, after)) = rest.split_first() {
        if !is_blank(*byte) {
            break;
        }
        rest = after;
    }
    rest
}

// The text without the blanks and CR at its end.
fn without_end(text: &[u8]) -> &[u8]
    ensures { result.now ≡ words.without_end text.now }
{
    let mut rest = text;
    'blanks: while let Some((byte, front)) = rest.split_last() {
        if !is_ending(*byte) {
            break;
        }
        rest = front;
    }
    rest
}

/// The text without the blanks in front of it, and without the blanks and CR behind it.
pub fn trimmed(text: &[u8]) -> &[u8]
    ensures { result.now ≡ words.trimmed text.now }
{
    without_end(from_word(text))
}

/// Whether the text has no words.
pub fn is_empty(text: &[u8]) -> bool {
    from_word(text).is_empty()
}

/// Whether the text is this word alone, in any case of its letters.
pub fn is_word(text: &[u8], word: &[u8]) -> bool
    ensures { result ≡ words.is_word text.now word.now }
{
    match only_word(text) {
        Some(only) => is_same_word(only, word),
        None => false,
    }
}

/// The number that the word is, of decimal digits alone, where it is from 1 to a limit; None where it is another or none.
pub fn number(word: &[u8], limit: u64) -> Option<u64> {
    if word.is_empty() {
        return None;
    }
    let mut number: u64 = 0;
    'digits: for byte in word {
        if !byte.is_ascii_digit() {
            return None;
        }
        number = number
            .saturating_mul(10)
            .saturating_add(u64::from(byte.saturating_sub(b'0')));
    }
    if number == 0 || number > limit {
        None
    } else {
        Some(number)
    }
}
