//! Faults of lines.

use crate::blame::{Blame, behind_end};
use crate::expectations::expected_blame;
use crate::piece::Piece;
use crate::stimuli::{at_blame, command_blame, every_blame, ramp_blame};
use crate::wanted::Wanted;
use crate::watches::{response_blame, run_blame, until_blame, watched_blame};
use sfc_cases::instant::read_instant;
use sfc_cases::sfc_script::wanted::words_behind;
use sfc_plant::plant::Plant;
use sfc_script::sfc_debug::sfc_core::resource::Resource;
use sfc_why::naming::{Missing, missing_in};
use std::alloc::{AllocError, Global};

// What makes a text no name with `=` and a word; None where it is that.
fn let_blame(text: Piece<'_>) -> Option<Blame<'_>> {
    let Some((_, behind)) = text.split() else {
        return Some(Blame::Word(text.end(), Wanted::Name));
    };
    match behind.split() {
        Some((sign, word)) if sign.is(b"=") => match word.split() {
            Some((_, rest)) => behind_end(rest),
            None => Some(Blame::Word(word.end(), Wanted::Word)),
        },
        _ => Some(Blame::of_first(behind, Wanted::Equals)),
    }
}

/// What makes a line none that begins a case or has a name stand for a word; None where it is one, or is another.
pub fn naming_blame(line: Piece<'_>) -> Option<Blame<'_>> {
    let (word, behind) = line.split()?;
    if word.is(b"LET") {
        return let_blame(behind);
    }
    if word.is(b"TEST") && behind.split().is_none() {
        return Some(Blame::Word(behind.end(), Wanted::CaseName));
    }
    None
}

/// Whether the word begins a case, or has a name stand for a word.
pub fn is_naming(word: Piece<'_>) -> bool {
    word.is(b"TEST") || word.is(b"LET")
}

// Whether the word begins as an instant does.
fn looks_like_instant(word: Piece<'_>) -> bool {
    match word.text.first() {
        Some(byte) => *byte == b'+' || byte.is_ascii_digit() || word.text.contains(&b'#'),
        None => false,
    }
}

// What makes a text no stimulus and no command; None where none is found.
fn stirred_blame<'a>(plant: &Plant, text: Piece<'a>) -> Option<Blame<'a>> {
    let Some((word, behind)) = text.split() else {
        return Some(Blame::Word(text.end(), Wanted::Keyword));
    };
    if word.is(b"EVERY") {
        return Some(every_blame(plant, behind));
    }
    if word.is(b"AT") {
        return Some(at_blame(plant, behind));
    }
    if word.is(b"RAMP") {
        return ramp_blame(plant, behind);
    }
    if words_behind(word.text).is_none() {
        return Some(Blame::Word(word, Wanted::Keyword));
    }
    Some(command_blame(plant, text))
}

// What makes a text nothing that a line says behind its instant; None where none is found.
fn deed_blame<'a>(
    alloc: Global,
    plant: &Plant,
    text: Piece<'a>,
) -> Result<Option<Blame<'a>>, AllocError> {
    let Some((word, behind)) = text.split() else {
        return Ok(Some(Blame::Word(text.end(), Wanted::Keyword)));
    };
    if word.is(b"RUN") {
        Ok(run_blame(behind))
    } else if word.is(b"UNTIL") {
        until_blame(alloc, plant, behind)
    } else if word.is(b"EXPECT") {
        expected_blame(alloc, plant, behind)
    } else if word.is(b"ALWAYS") || word.is(b"NEVER") {
        watched_blame(alloc, plant, behind)
    } else if word.is(b"WITHIN") {
        response_blame(alloc, plant, behind)
    } else {
        Ok(stirred_blame(plant, text))
    }
}

/// What makes a line nothing that is done at an instant; None where none is found. The one error is that memory was refused.
pub fn timed_blame<'a>(
    alloc: Global,
    plant: &Plant,
    line: Piece<'a>,
) -> Result<Option<Blame<'a>>, AllocError> {
    let Some((word, behind)) = line.split() else {
        return Ok(None);
    };
    if read_instant(word.text).is_some() {
        return deed_blame(alloc, plant, behind);
    }
    if looks_like_instant(word) {
        return Ok(Some(Blame::Word(word, Wanted::Instant)));
    }
    deed_blame(alloc, plant, line)
}

// The command that a text gives, behind EVERY or AT too; None where it gives none that has to be accepted.
fn command_in(text: Piece<'_>) -> Option<Piece<'_>> {
    let (word, behind) = text.split()?;
    if word.is(b"EVERY") || word.is(b"AT") {
        let (_, command) = behind.split()?;
        return Some(command);
    }
    Some(text)
}

/// The first name in the command of a line that the plant hasn't; None where the line gives no command that has to be accepted, or where
/// there is none. It takes no memory.
pub fn missing_in_line(resource: &Resource, line: &[u8]) -> Option<Missing> {
    let whole = Piece::of(line);
    let (word, behind) = whole.split()?;
    let text = match read_instant(word.text) {
        Some(_) => behind,
        None => whole,
    };
    let command = command_in(text)?;
    missing_in(resource, line, command.text)
}
