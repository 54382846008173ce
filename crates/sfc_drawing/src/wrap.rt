//! The lines of a condition beside its transition.

use std::alloc::{AllocError, Global};

/// How many characters a line has at most.
pub const LINE: usize = 34;

// How many lines there are at most.
const LINES: usize = 4;

// Where a line ends.
#[derive(Clone, Copy)]
struct Break {
    // How many characters are on it.
    shown: usize,
    // How many of them and of blanks behind them are no more on the next.
    passed: usize,
}

// Where the first line of the rest of a condition ends: at the last blank that leaves it short enough, else where it is full.
fn break_of(rest: &[u8]) -> Break {
    if rest.len() <= LINE {
        return Break {
            shown: rest.len(),
            passed: rest.len(),
        };
    }
    let mut found = Break {
        shown: LINE,
        passed: LINE,
    };
    for (place, byte) in rest.iter().take(LINE + 1).enumerate() {
        if *byte == b' ' && place > 0 {
            found = Break {
                shown: place,
                passed: place.saturating_add(1),
            };
        }
    }
    found
}

// The last line, with dots where more would follow.
fn last_line(alloc: Global, rest: &[u8]) -> Result<Vec<u8>, AllocError> {
    let end = break_of(rest).shown.min(LINE - 3);
    if rest.len() <= LINE {
        return Vec::from_slice(alloc, rest);
    }
    let mut line = match rest.get(..end) {
        Some(front) => Vec::from_slice(alloc, front)?,
        None => Vec::new(alloc),
    };
    line.extend_from_slice(b" ..")?;
    Ok(line)
}

/// The lines of a condition, at blanks where that can be. The one error is that memory was refused.
pub fn wrapped(alloc: Global, condition: &[u8]) -> Result<Vec<Vec<u8>>, AllocError> {
    let mut lines = Vec::new(alloc);
    let mut rest = condition;
    for number in 1..=LINES {
        if number == LINES && !rest.is_empty() {
            lines.push(last_line(alloc, rest)?)?;
        } else if !rest.is_empty() {
            let end = break_of(rest);
            if let Some(front) = rest.get(..end.shown) {
                lines.push(Vec::from_slice(alloc, front)?)?;
            }
            rest = rest.get(end.passed..).unwrap_or(b"");
        }
    }
    Ok(lines)
}
