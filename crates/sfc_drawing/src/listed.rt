//! The conditions of transitions and the bodies of actions, as the listing of a plant has them.

use sfc_list::list::list;
use sfc_plant::plant::Plant;
use std::alloc::{AllocError, Global};

// What stands in front of a condition on its line of a listing, and behind it.
const FRONT: &[u8] = b"    := ";

const BACK: &[u8] = b";";

// How a declaration of an action begins, and its last line.
const BEGIN: &[u8] = b"  ACTION ";

const END: &[u8] = b"  END_ACTION";

/// The conditions of all transitions of a plant, and the lines of the bodies of all its actions, in the order of its text.
#[derive(Drop)]
pub struct Listed {
    conditions: Vec<Vec<u8>>,
    bodies: Vec<Vec<Vec<u8>>>,
}

// The condition on a line, if it has one.
fn condition_on(line: &[u8]) -> Option<&[u8]> {
    line.strip_prefix(FRONT)?.strip_suffix(BACK)
}

impl Listed {
    /// Those of a plant. The one error is that memory was refused.
    pub fn of_plant(alloc: Global, plant: &Plant) -> Result<Listed, AllocError> {
        let listing = list(alloc, plant)?;
        let mut listed = Listed {
            conditions: Vec::new(alloc),
            bodies: Vec::new(alloc),
        };
        let mut is_body = false;
        for line in listing.as_slice().split(|byte| *byte == b'\n') {
            is_body = listed.take_line(alloc, line, is_body)?;
        }
        Ok(listed)
    }

    // Takes what a line has, which is one of a body or not. Answers whether the next is one.
    fn take_line(&mut self, alloc: Global, line: &[u8], is_body: bool) -> Result<bool, AllocError> {
        if line == END {
            return Ok(false);
        }
        if is_body {
            self.take_statement(alloc, line)?;
        } else if line.starts_with(BEGIN) {
            self.bodies.push(Vec::new(alloc))?;
            return Ok(true);
        } else if let Some(condition) = condition_on(line) {
            self.conditions.push(Vec::from_slice(alloc, condition)?)?;
        }
        Ok(is_body)
    }

    // Takes a line of the last body, without what all lines of bodies begin with.
    fn take_statement(&mut self, alloc: Global, line: &[u8]) -> Result<(), AllocError> {
        let line = Vec::from_slice(alloc, line.strip_prefix(b"    ").unwrap_or(line))?;
        if let Some(body) = self.bodies.last_mut() {
            body.push(line)?;
        }
        Ok(())
    }

    /// The conditions from this number on among all of the plant.
    pub fn conditions(&self, first: usize) -> &[Vec<u8>] {
        self.conditions.as_slice().get(first..).unwrap_or(&[])
    }

    /// The bodies from this number on among all of the plant.
    pub fn bodies(&self, first: usize) -> &[Vec<Vec<u8>>] {
        self.bodies.as_slice().get(first..).unwrap_or(&[])
    }
}

/// The text with this number; nothing where there is none.
pub fn text_at(texts: &[Vec<u8>], number: usize) -> &[u8] {
    match texts.get(number) {
        Some(text) => text,
        None => b"",
    }
}

/// The lines of the body with this number; none where there is none.
pub fn lines_at(bodies: &[Vec<Vec<u8>>], number: usize) -> &[Vec<u8>] {
    match bodies.get(number) {
        Some(lines) => lines,
        None => &[],
    }
}
