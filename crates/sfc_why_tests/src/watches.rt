//! Faults behind RUN, UNTIL, ALWAYS, NEVER and WITHIN.

use crate::blame::{Blame, behind_end};
use crate::conditions::condition_blame;
use crate::piece::Piece;
use crate::wanted::Wanted;
use sfc_cases::instant::read_instant;
use sfc_plant::plant::Plant;
use sfc_tokens::duration::duration;
use std::alloc::{AllocError, Global};

/// What makes a text no instant and nothing behind it; None where it is that.
pub fn run_blame(text: Piece<'_>) -> Option<Blame<'_>> {
    match text.split() {
        Some((word, behind)) if read_instant(word.text).is_some() => behind_end(behind),
        _ => Some(Blame::of_first(text, Wanted::Instant)),
    }
}

// What makes a text no duration and nothing behind it; None where it is that.
fn duration_blame(text: Piece<'_>) -> Option<Blame<'_>> {
    match text.split() {
        Some((word, behind)) if duration(word.text).is_some() => behind_end(behind),
        _ => Some(Blame::of_first(text, Wanted::Duration)),
    }
}

/// What makes a text no condition with WITHIN and a duration; None where it is that. The one error is that memory was refused.
pub fn until_blame<'a>(
    alloc: Global,
    plant: &Plant,
    text: Piece<'a>,
) -> Result<Option<Blame<'a>>, AllocError> {
    let Some((front, behind)) = text.divide(b"WITHIN") else {
        let blame = condition_blame(alloc, plant, text)?;
        return Ok(Some(blame.unwrap_or(Blame::Word(text.end(), Wanted::Within))));
    };
    let blame = condition_blame(alloc, plant, front)?;
    Ok(blame.or(duration_blame(behind)))
}

/// What makes a text no condition with an end behind UNTIL or FOR, or without one; None where it is that. The one error is that memory was
/// refused.
pub fn watched_blame<'a>(
    alloc: Global,
    plant: &Plant,
    text: Piece<'a>,
) -> Result<Option<Blame<'a>>, AllocError> {
    if let Some((front, behind)) = text.divide(b"UNTIL") {
        let blame = condition_blame(alloc, plant, front)?;
        let other = condition_blame(alloc, plant, behind)?;
        return Ok(blame.or(other));
    }
    if let Some((front, behind)) = text.divide(b"FOR") {
        let blame = condition_blame(alloc, plant, front)?;
        return Ok(blame.or(duration_blame(behind)));
    }
    condition_blame(alloc, plant, text)
}

// What makes a text no condition with EXPECT and a condition.
fn responded_blame<'a>(
    alloc: Global,
    plant: &Plant,
    text: Piece<'a>,
) -> Result<Option<Blame<'a>>, AllocError> {
    let Some((front, behind)) = text.divide(b"EXPECT") else {
        let blame = condition_blame(alloc, plant, text)?;
        return Ok(Some(blame.unwrap_or(Blame::Word(text.end(), Wanted::Expect))));
    };
    let blame = condition_blame(alloc, plant, front)?;
    let other = condition_blame(alloc, plant, behind)?;
    Ok(blame.or(other))
}

/// What makes a text no duration with AFTER, a condition, EXPECT and a condition; None where it is that. The one error is that memory was
/// refused.
pub fn response_blame<'a>(
    alloc: Global,
    plant: &Plant,
    text: Piece<'a>,
) -> Result<Option<Blame<'a>>, AllocError> {
    let Some((front, behind)) = text.divide(b"AFTER") else {
        let blame = duration_blame(text);
        return Ok(Some(blame.unwrap_or(Blame::Word(text.end(), Wanted::After))));
    };
    let blame = duration_blame(front);
    if blame.is_some() {
        return Ok(blame);
    }
    responded_blame(alloc, plant, behind)
}
