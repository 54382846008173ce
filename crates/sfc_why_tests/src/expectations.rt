//! Faults behind EXPECT.

use crate::blame::{Blame, behind_end};
use crate::conditions::condition_blame;
use crate::piece::Piece;
use crate::stimuli::command_blame;
use crate::wanted::Wanted;
use sfc_base::ids::ProgId;
use sfc_cases::condition::find_asked;
use sfc_cases::sfc_script::number::magnitude;
use sfc_plant::plant::Plant;
use sfc_why::naming::Sought;
use std::alloc::{AllocError, Global};

/// The greatest number of a refusal.
const GREATEST_NUMBER: u64 = 255;

/// The most overruns that a line can tell.
const MOST_OVERRUNS: u64 = 2_147_483_647;

// What makes a text no number of a refusal with a command.
fn refused_blame<'a>(plant: &Plant, text: Piece<'a>) -> Option<Blame<'a>> {
    match text.split() {
        Some((word, behind)) if magnitude(word.text, GREATEST_NUMBER).is_some() => {
            Some(command_blame(plant, behind))
        }
        _ => Some(Blame::of_first(text, Wanted::RefusalNumber)),
    }
}

// Whether the word names a kind of faults.
fn is_fault(word: Piece<'_>) -> bool {
    word.is(b"DivZero")
        || word.is(b"Range")
        || word.is(b"TwoTimed")
        || word.is(b"SdWhileSl")
        || word.is(b"SlWhileSd")
}

// What makes a text no name of something that is sought and nothing behind it, where it is to be found so.
fn named_blame<'a>(text: Piece<'a>, sought: Sought, is_there: bool) -> Option<Blame<'a>> {
    match text.split() {
        None => Some(Blame::Word(text.end(), Wanted::Name)),
        Some((name, _)) if !is_there => Some(Blame::Missing(name.span(), sought)),
        Some((_, behind)) => behind_end(behind),
    }
}

// What makes a text no kind of faults with a program instance.
fn faulted_blame<'a>(plant: &Plant, text: Piece<'a>) -> Option<Blame<'a>> {
    match text.split() {
        Some((kind, behind)) if is_fault(kind) => {
            let name = behind.split();
            let is_there = match name {
                Some((name, _)) => plant.find_instance(name.text).is_some(),
                None => false,
            };
            named_blame(behind, Sought::Program, is_there)
        }
        _ => Some(Blame::of_first(text, Wanted::FaultKind)),
    }
}

// What makes a text no number with a task.
fn overran_blame<'a>(plant: &Plant, text: Piece<'a>) -> Option<Blame<'a>> {
    match text.split() {
        Some((word, behind)) if magnitude(word.text, MOST_OVERRUNS).is_some() => {
            let is_there = match behind.split() {
                Some((name, _)) => plant.find_task(name.text).is_some(),
                None => false,
            };
            named_blame(behind, Sought::Task, is_there)
        }
        _ => Some(Blame::of_first(text, Wanted::Count)),
    }
}

// The part before the first comma, and what stands behind that, if there is one.
fn split_part(text: Piece<'_>) -> (Piece<'_>, Option<Piece<'_>>) {
    let count = text.text.iter().position(|byte| *byte == b',');
    let Some(count) = count else {
        return (text, None);
    };
    let (front, behind) = text.text.split_at(count.min(text.text.len()));
    let part = Piece {
        from: text.from,
        text: front,
    };
    let behind = Piece {
        from: text.from.saturating_add(count).saturating_add(1),
        text: behind.get(1..).unwrap_or(b""),
    };
    (part, Some(behind))
}

// What makes a part of a list no step of the program instance; None where it is one.
fn step_blame<'a>(plant: &Plant, program: ProgId, part: Piece<'a>) -> Option<Blame<'a>> {
    let Some((name, behind)) = part.split() else {
        return Some(Blame::Word(part.end(), Wanted::Step));
    };
    match plant.find_step(program, name.text) {
        Some(_) => behind_end(behind),
        None => Some(Blame::Missing(name.span(), Sought::Step(program))),
    }
}

// What makes a text no list of steps; None where it is one.
fn active_blame<'a>(plant: &Plant, program: ProgId, text: Piece<'a>) -> Option<Blame<'a>> {
    let mut rest = text;
    'parts: for _part in 0..=text.text.len() {
        let (part, behind) = split_part(rest);
        let blame = step_blame(plant, program, part);
        if blame.is_some() {
            return blame;
        }
        match behind {
            Some(others) => rest = others,
            None => return None,
        }
    }
    None
}

// Of which program instance steps are listed, and the list, where the text says so.
fn listed<'a>(plant: &Plant, text: Piece<'a>) -> Option<(ProgId, Piece<'a>)> {
    let asked = find_asked(plant, text.text)?;
    let count = text.text.len().saturating_sub(asked.text.len());
    let said = Piece {
        from: text.from.saturating_add(count),
        text: asked.text,
    };
    let (word, behind) = said.split()?;
    if word.is(b"ACTIVE") {
        Some((asked.program, behind))
    } else {
        None
    }
}

/// What makes a text nothing that may stand behind EXPECT; None where none is found. The one error is that memory was refused.
pub fn expected_blame<'a>(
    alloc: Global,
    plant: &Plant,
    text: Piece<'a>,
) -> Result<Option<Blame<'a>>, AllocError> {
    let Some((word, behind)) = text.split() else {
        return Ok(Some(Blame::Word(text.end(), Wanted::Condition)));
    };
    if word.is(b"REFUSED") {
        return Ok(refused_blame(plant, behind));
    }
    if word.is(b"FAULT") {
        return Ok(faulted_blame(plant, behind));
    }
    if word.is(b"OVERRUNS") {
        return Ok(overran_blame(plant, behind));
    }
    if word.is(b"ACTIVE") && plant.instances().len() != 1 {
        return Ok(Some(Blame::Word(word, Wanted::Program)));
    }
    match listed(plant, text) {
        Some((program, steps)) => Ok(active_blame(plant, program, steps)),
        None => condition_blame(alloc, plant, text),
    }
}
