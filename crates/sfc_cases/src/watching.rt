//! What stands behind RUN, UNTIL, ALWAYS, NEVER and WITHIN.

ghost use Rattle.std.specs.Prelude.{◌≡◌, IfOk, option_map};
ghost use Rattle.sfc_cases.specs.declared.watch.End.TheVariants.{After, When};
ghost use Rattle.sfc_cases.specs.Conditions.{IsReader, Reader};
ghost use Rattle.sfc_cases.specs.Deeds as deeds;

use crate::condition::read_condition;
use crate::deed::Deed;
use crate::instant::{Instant, read_instant};
use crate::joined::Condition;
use crate::watch::{End, Response, Steady, Watch};
use crate::words::divided;
use sfc_plant::plant::Plant;
use sfc_script::split::only_word;
use sfc_tokens::duration::duration;
use std::alloc::{AllocError, Global};

/// What stands behind RUN, an instant; None where it is none.
pub fn read_run(text: &[u8]) -> Option<Deed>
    ensures { result ≡ deeds.run_of text.now }
{
    let word = only_word(text)?;
    let limit = read_instant(word)?;
    Some(Deed::Runs(None, limit))
}

// The duration that a text is.
fn duration_of(text: &[u8]) -> Option<i64>
    ensures { result ≡ deeds.duration_of text.now }
{
    let word = only_word(text)?;
    duration(word)
}

// A run until the condition is TRUE, within so many microseconds, where there are both.
fn until_by(until: Option<Condition>, micros: Option<i64>) -> Option<Deed>
    ensures { result ≡ deeds.until_by until micros }
{
    let micros = micros?;
    match until {
        Some(until) => Some(Deed::Runs(Some(until), Instant::Later(micros))),
        None => None,
    }
}

/// What stands behind UNTIL: a condition, WITHIN and a duration; None where it isn't that. The error is that memory was refused.
pub fn read_until(alloc: Global, plant: &Plant, text: &[u8]) -> Result<Option<Deed>, AllocError>
    ensures { (read : Reader) → IsReader read → IfOk result (λ deed. deed ≡ deeds.until_of plant.now read text.now) }
{
    let Some((front, behind)) = divided(text, b"WITHIN") else {
        return Ok(None);
    };
    let until = read_condition(alloc, plant, front)?;
    Ok(until_by(until, duration_of(behind)))
}

// A condition that is watched, where there is one and an end.
fn watched_by(wanted: bool, condition: Option<Condition>, end: Option<End>) -> Option<Deed>
    ensures { result ≡ deeds.watched_by wanted condition end }
{
    match (condition, end) {
        (Some(condition), Some(end)) => Some(Deed::Watches(Watch::Stays(Steady {
            wanted,
            condition,
            end,
        }))),
        _ => None,
    }
}

// The end that a condition is, where there is one.
fn when(condition: Option<Condition>) -> Option<End>
    ensures { result ≡ option_map When condition }
{
    match condition {
        Some(condition) => Some(End::When(condition)),
        None => None,
    }
}

// The end that a duration is, where there is one.
fn after(micros: Option<i64>) -> Option<End>
    ensures { result ≡ option_map After micros }
{
    match micros {
        Some(micros) => Some(End::After(micros)),
        None => None,
    }
}

/// What stands behind ALWAYS, where the condition has to be TRUE, or NEVER: a condition, and an end behind UNTIL or FOR, or none; None
/// where it isn't that. The error is that memory was refused.
pub fn read_watched(
    alloc: Global,
    plant: &Plant,
    wanted: bool,
    text: &[u8],
) -> Result<Option<Deed>, AllocError>
    ensures { (read : Reader) → IsReader read → IfOk result (λ deed. deed ≡ deeds.watched_of plant.now read wanted text.now) }
{
    if let Some((front, behind)) = divided(text, b"UNTIL") {
        let condition = read_condition(alloc, plant, front)?;
        let end = when(read_condition(alloc, plant, behind)?);
        return Ok(watched_by(wanted, condition, end));
    }
    if let Some((front, behind)) = divided(text, b"FOR") {
        let condition = read_condition(alloc, plant, front)?;
        return Ok(watched_by(wanted, condition, after(duration_of(behind))));
    }
    let condition = read_condition(alloc, plant, text)?;
    Ok(watched_by(wanted, condition, Some(End::CaseEnds)))
}

// A response, where there is all of it.
fn response_by(
    within: Option<i64>,
    cause: Option<Condition>,
    effect: Option<Condition>,
) -> Option<Deed>
    ensures { result ≡ deeds.response_by within cause effect }
{
    match (within, cause, effect) {
        (Some(within), Some(cause), Some(effect)) => {
            Some(Deed::Watches(Watch::Responds(Response {
                cause,
                effect,
                within,
            })))
        }
        _ => None,
    }
}

// condition EXPECT condition, within so many microseconds, if they are told. The error is that memory was refused.
fn responded(
    alloc: Global,
    plant: &Plant,
    within: Option<i64>,
    text: &[u8],
) -> Result<Option<Deed>, AllocError>
    ensures { (read : Reader) → IsReader read → IfOk result (λ deed. deed ≡ deeds.responded plant.now read within text.now) }
{
    let Some((front, behind)) = divided(text, b"EXPECT") else {
        return Ok(None);
    };
    let cause = read_condition(alloc, plant, front)?;
    let effect = read_condition(alloc, plant, behind)?;
    Ok(response_by(within, cause, effect))
}

/// What stands behind WITHIN: a duration, AFTER, a condition, EXPECT and a condition; None where it isn't that. The error is that memory
/// was refused.
pub fn read_response(alloc: Global, plant: &Plant, text: &[u8]) -> Result<Option<Deed>, AllocError>
    ensures { (read : Reader) → IsReader read → IfOk result (λ deed. deed ≡ deeds.response_of plant.now read text.now) }
{
    match divided(text, b"AFTER") {
        Some((front, behind)) => responded(alloc, plant, duration_of(front), behind),
        None => Ok(None),
    }
}
