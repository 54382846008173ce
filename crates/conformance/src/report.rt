//! What is printed of a case.

use crate::case::Case;
use crate::ending::Ending;
use std::io;

/// How many cases ended as is wanted, and how many did not.
#[derive(Clone, Copy)]
pub struct Counts {
    pub passed: u64,
    pub failed: u64,
}

impl Counts {
    /// No case was run.
    pub fn new() -> Counts {
        Counts {
            passed: 0,
            failed: 0,
        }
    }

    /// One more case.
    pub fn add(&mut self, passed: bool) {
        if passed {
            self.passed = self.passed.saturating_add(1);
        } else {
            self.failed = self.failed.saturating_add(1);
        }
    }
}

// Prints the first line in which two outputs differ.
fn print_difference(rt: &impl Print, found: &[u8], wanted: &[u8]) -> io::Result<()> {
    let mut others = wanted.split(|byte| *byte == b'\n');
    for (index, line) in found.split(|byte| *byte == b'\n').enumerate() {
        let number = index.wrapping_add(1);
        let other = others.next();
        if other != Some(line) {
            let line = line.escape_ascii();
            println!(rt; "  output line {number}: {line}")?;
            return match other {
                Some(other) => {
                    let other = other.escape_ascii();
                    println!(rt; "       wanted: {other}")
                }
                None => println!(rt; "       wanted: none"),
            };
        }
    }
    println!(rt; "  the output ends too early")
}

// Prints in what the ending differs from the one that is wanted.
fn print_differences(rt: &impl Print, found: &Ending, wanted: &Ending) -> io::Result<()> {
    if found.status != wanted.status {
        let (found, wanted) = (found.status, wanted.status);
        println!(rt; "  status {found}, wanted {wanted}")?;
    }
    if found.fault.as_str() != wanted.fault.as_str() {
        let (found, wanted) = (found.fault.as_str(), wanted.fault.as_str());
        println!(rt; "  standard error: {found}\n         wanted: {wanted}")?;
    }
    if found.output.as_slice() != wanted.output.as_slice() {
        print_difference(rt, &found.output, &wanted.output)?;
    }
    Ok(())
}

// Whether the endings are the same.
fn is_same(found: &Ending, wanted: &Ending) -> bool {
    found.status == wanted.status
        && found.fault.as_str() == wanted.fault.as_str()
        && found.output.as_slice() == wanted.output.as_slice()
}

/// Runs the case and prints a line about it, and in what it differs from what is wanted; whether it is as wanted.
pub fn judge<R: Print + AllocGlobal>(rt: &R, case: &Case) -> io::Result<bool> {
    let found = case.ending(rt.alloc())?;
    let title = case.title.as_str();
    if is_same(&found, &case.wanted) {
        println!(rt; "ok {title}")?;
        return Ok(true);
    }
    println!(rt; "differs {title}")?;
    print_differences(rt, &found, &case.wanted)?;
    Ok(false)
}
