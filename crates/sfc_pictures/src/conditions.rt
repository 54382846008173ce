//! The conditions of transitions, as a listing has them.

use crate::sfc_list::list::list;
use crate::sfc_script::arriving::ended_line;
use sfc_plant::plant::Plant;
use std::alloc::{AllocError, Global};

/// What stands in front of a condition on its line of a listing, and behind it.
const FRONT: &[u8] = b"    := ";

const BACK: &[u8] = b";";

/// The conditions of all transitions of a plant, in the order of its text.
#[derive(Drop)]
pub struct Conditions {
    texts: Vec<Vec<u8>>,
}

// The condition on a line of a listing, if it has one.
fn condition_on(line: &[u8]) -> Option<&[u8]> {
    if line.len() < FRONT.len() + BACK.len() {
        return None;
    }
    let (front, rest) = line.split_at(FRONT.len());
    let (condition, back) = rest.split_at(rest.len() - BACK.len());
    if front == FRONT && back == BACK {
        Some(condition)
    } else {
        None
    }
}

impl Conditions {
    // Those of a listing.
    fn listed(alloc: Global, listing: &[u8]) -> Result<Conditions, AllocError> {
        let mut texts = Vec::new(alloc);
        let mut rest = listing;
        'lines: while let Some((line, behind)) = ended_line(rest) {
            if let Some(condition) = condition_on(line) {
                texts.push(Vec::from_slice(alloc, condition)?)?;
            }
            rest = behind;
        }
        Ok(Conditions { texts })
    }

    /// Those of a plant. The one error is that memory was refused.
    pub fn of_plant(alloc: Global, plant: &Plant) -> Result<Conditions, AllocError> {
        let listing = list(alloc, plant)?;
        Conditions::listed(alloc, &listing)
    }

    /// That of the transition with this number among all of the plant; nothing where there is none.
    pub fn of_transition(&self, number: usize) -> &[u8] {
        match self.texts.get(number) {
            Some(text) => text,
            None => b"",
        }
    }
}
