//! Faults of conditions.

use crate::blame::Blame;
use crate::piece::Piece;
use crate::wanted::Wanted;
use sfc_base::ids::ProgId;
use sfc_cases::condition::{Asked, condition_in, read_condition};
use sfc_cases::words::split_joint;
use sfc_plant::plant::Plant;
use sfc_why::naming::Sought;
use std::alloc::{AllocError, Global};

/// The most joints of a condition.
const MOST_JOINTS: usize = 255;

// What makes a part no condition, behind `IN`.
fn named_blame<'a>(plant: &Plant, text: Piece<'a>) -> Blame<'a> {
    let Some((name, behind)) = text.split() else {
        return Blame::Word(text.end(), Wanted::Program);
    };
    match plant.find_instance(name.text) {
        Some(program) if behind.split().is_some() => Blame::Condition(behind, program),
        Some(_) => Blame::Word(behind.end(), Wanted::Condition),
        None => Blame::Missing(name.span(), Sought::Program),
    }
}

// What makes a part no condition that names no program instance. Where it is one of the first instance, it isn't told which is meant.
fn unnamed_blame<'a>(
    alloc: Global,
    plant: &Plant,
    text: Piece<'a>,
) -> Result<Blame<'a>, AllocError> {
    let program = ProgId(0);
    let asked = Asked {
        program,
        text: text.text,
    };
    let is_one = condition_in(alloc, plant, asked)?.is_some();
    if is_one && plant.instances().len() > 1 {
        return Ok(Blame::of_first(text, Wanted::Program));
    }
    Ok(Blame::Condition(text, program))
}

// What makes a part no condition; None where it is one.
fn part_blame<'a>(
    alloc: Global,
    plant: &Plant,
    part: Piece<'a>,
) -> Result<Option<Blame<'a>>, AllocError> {
    if read_condition(alloc, plant, part.text)?.is_some() {
        return Ok(None);
    }
    match part.split() {
        None => Ok(Some(Blame::Word(part.end(), Wanted::Condition))),
        Some((word, behind)) if word.is(b"IN") => Ok(Some(named_blame(plant, behind))),
        Some(_) => Ok(Some(unnamed_blame(alloc, plant, part)?)),
    }
}

/// What makes a text no condition, which has parts with AND and OR between; None where it is one. The one error is that memory was refused.
pub fn condition_blame<'a>(
    alloc: Global,
    plant: &Plant,
    text: Piece<'a>,
) -> Result<Option<Blame<'a>>, AllocError> {
    let mut rest = text;
    'parts: for _joint in 0..MOST_JOINTS {
        let Some((front, _, behind)) = split_joint(1, rest.text) else {
            break;
        };
        let part = Piece {
            from: rest.from,
            text: front,
        };
        let blame = part_blame(alloc, plant, part)?;
        if blame.is_some() {
            return Ok(blame);
        }
        let count = rest.text.len().saturating_sub(behind.len());
        rest = Piece {
            from: rest.from.saturating_add(count),
            text: behind,
        };
    }
    part_blame(alloc, plant, rest)
}
