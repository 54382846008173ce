//! The text that a line of a case stands for.

use anyhow::{Result, bail};
use std::alloc::AllocError;
use std::io::Write;

// The value of a hexadecimal digit.
fn digit_of(digit: u8) -> Option<u8> {
    match digit {
        b'0'..=b'9' => Some(digit - b'0'),
        b'a'..=b'f' => Some(digit - b'a' + 10),
        _ => None,
    }
}

// Adds the byte, and what follows it.
fn add_byte(text: &mut Vec<u8>, byte: u8, rest: &[u8]) -> Result<(), AllocError> {
    text.push(byte)?;
    text.extend_from_slice(rest)
}

// Adds the byte of two hexadecimal digits, and what follows them.
fn add_hexadecimal(text: &mut Vec<u8>, high: u8, low: u8, rest: &[u8]) -> Result<()> {
    match (digit_of(high), digit_of(low)) {
        (Some(high), Some(low)) => Ok(add_byte(text, high << 4 | low, rest)?),
        _ => bail!("two hexadecimal digits stand behind \\x"),
    }
}

// Adds what stands behind a backslash, of which the first bytes say what is meant.
fn add_escaped(text: &mut Vec<u8>, piece: &[u8], number: usize) -> Result<()> {
    match piece {
        [] => Ok(()),
        [b'n', rest @ ..] => Ok(add_byte(text, b'\n', rest)?),
        [b'r', rest @ ..] => Ok(add_byte(text, b'\r', rest)?),
        [b't', rest @ ..] => Ok(add_byte(text, b'\t', rest)?),
        [b'x', high, low, rest @ ..] => add_hexadecimal(text, *high, *low, rest),
        [b'#', rest @ ..] => {
            write!(text, "{number}")?;
            Ok(text.extend_from_slice(rest)?)
        }
        _ => bail!("this can't stand behind a backslash"),
    }
}

/// Adds the text of a line and a line end. In it `\n`, `\r` and `\t` are line feed, carriage return and tab, `\x` and two
/// hexadecimal digits any byte, and `\#` is the number. A backslash as its last byte stands for no line end.
pub fn add_line(text: &mut Vec<u8>, line: &str, number: usize) -> Result<()> {
    let mut ends = true;
    for (index, piece) in line.split('\\').enumerate() {
        if index == 0 {
            text.extend_from_slice(piece.as_bytes())?;
        } else {
            add_escaped(text, piece.as_bytes(), number)?;
            ends = !piece.is_empty();
        }
    }
    if ends {
        text.push(b'\n')?;
    }
    Ok(())
}
