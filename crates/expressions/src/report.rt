//! What is printed of a row.

use crate::row::Row;
use std::io;

/// How many rows are as wanted, and how many are not.
#[derive(Clone, Copy)]
pub struct Counts {
    pub passed: u64,
    pub failed: u64,
}

impl Counts {
    /// No row was judged.
    pub fn new() -> Counts {
        Counts {
            passed: 0,
            failed: 0,
        }
    }

    /// One more row.
    pub fn add(&mut self, passed: bool) {
        if passed {
            self.passed = self.passed.saturating_add(1);
        } else {
            self.failed = self.failed.saturating_add(1);
        }
    }
}

/// Whether what was found of a row is as wanted; where it isn't, prints both.
pub fn judge(
    rt: &impl Print,
    name: &str,
    number: usize,
    row: &Row,
    found: &[u8],
) -> io::Result<bool> {
    let wanted = row.wanted;
    if found == wanted.as_bytes() {
        return Ok(true);
    }
    let text = row.text;
    let found = found.escape_ascii();
    println!(rt; "differs {name} line {number}: {text}")?;
    println!(rt; "  found: {found}\n wanted: {wanted}")?;
    Ok(false)
}
