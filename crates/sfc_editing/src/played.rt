//! The lines of a script that is played.

use crate::sfc_script::split::{first_word, next_line};
use std::alloc::{AllocError, Global};

/// A line that was played.
#[derive(Clone, Copy)]
struct Passed {
    // How many commands were accepted before it.
    accepted: usize,
    // Where it begins, and its number.
    place: usize,
    line: u32,
}

/// The lines of a script that is played, and which of them comes next.
pub struct Played {
    text: Vec<u8>,
    // Where the next line begins, and its number.
    place: usize,
    line: u32,
    // What was played.
    passed: Vec<Passed>,
}

// By hand, so that a caller that drops one proves one call.
impl Drop for Played {
    fn drop(self) {
        let Played {
            text: _,
            place: _,
            line: _,
            passed: _,
        } = self;
    }
}

// Whether a line says a command: it has words, and is no comment.
fn says_command(line: &[u8]) -> bool {
    match first_word(line) {
        Some((word, _)) => !word.starts_with(b";"),
        None => false,
    }
}

impl Played {
    /// A script of which no line was played.
    pub fn new(alloc: Global, text: Vec<u8>) -> Played {
        Played {
            text,
            place: 0,
            line: 1,
            passed: Vec::new(alloc),
        }
    }

    /// The text.
    pub fn text(&self) -> &[u8] {
        &self.text
    }

    // Passes over lines that say no command.
    fn pass_over(&mut self) {
        let mut rest = self.text.get(self.place..).unwrap_or(b"");
        'lines: while let Some((line, behind)) = next_line(rest) {
            if says_command(line) {
                break;
            }
            self.line = self.line.saturating_add(1);
            rest = behind;
        }
        self.place = self.text.len().saturating_sub(rest.len());
    }

    /// The number of the line that comes next, counted from 1, and the line, without its end; None behind the last one.
    pub fn upcoming(&mut self) -> Option<u32> {
        self.pass_over();
        if self.place < self.text.len() {
            Some(self.line)
        } else {
            None
        }
    }

    /// The line that comes next, without its end.
    pub fn words(&self) -> &[u8] {
        match next_line(self.text.get(self.place..).unwrap_or(b"")) {
            Some((line, _)) => line,
            None => b"",
        }
    }

    /// The line that comes next is played behind so many accepted commands. The one error is that memory was refused.
    pub fn pass(&mut self, accepted: usize) -> Result<(), AllocError> {
        self.passed.push(Passed {
            accepted,
            place: self.place,
            line: self.line,
        })?;
        if let Some((_, behind)) = next_line(self.text.get(self.place..).unwrap_or(b"")) {
            self.place = self.text.len().saturating_sub(behind.len());
            self.line = self.line.saturating_add(1);
        }
        Ok(())
    }

    /// Goes back to the first line that was played behind so many accepted commands or more.
    pub fn go_back(&mut self, accepted: usize) {
        let stay = self
            .passed
            .iter()
            .take_while(|passed| passed.accepted < accepted)
            .count();
        if let Some(first) = self.passed.get(stay) {
            self.place = first.place;
            self.line = first.line;
        }
        self.passed.truncate(stay);
    }

    /// The first line from this one on that says a command; None where there is none. Lines are counted from 1.
    pub fn command_line(&self, wanted: u32) -> Option<u32> {
        let mut number: u32 = 1;
        let mut rest = self.text.as_slice();
        'lines: while let Some((line, behind)) = next_line(rest) {
            if number >= wanted && says_command(line) {
                return Some(number);
            }
            number = number.saturating_add(1);
            rest = behind;
        }
        None
    }
}
