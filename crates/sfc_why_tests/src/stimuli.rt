//! Faults of commands, and of EVERY, AT and RAMP.

use crate::blame::{Blame, behind_end};
use crate::piece::Piece;
use crate::wanted::Wanted;
use sfc_base::ids::VarId;
use sfc_base::var_type::VarType;
use sfc_cases::instant::read_instant;
use sfc_cases::sfc_script::line_fault::{LineFault, text_fault};
use sfc_cases::sfc_script::number::dint;
use sfc_cases::sfc_script::wanted::Wanted as OfScript;
use sfc_plant::plant::Plant;
use sfc_tokens::duration::duration;
use sfc_why::naming::Sought;

// What stands behind so many words.
fn behind_words(text: Piece<'_>, count: usize) -> Piece<'_> {
    let mut rest = text;
    for _word in 0..count {
        match rest.split() {
            Some((_, behind)) => rest = behind,
            None => return rest,
        }
    }
    rest
}

// What makes the condition of a breakpoint none, which stands behind so many words of the command.
fn awaited_blame<'a>(plant: &Plant, text: Piece<'a>, count: usize) -> Blame<'a> {
    let Some((name, _)) = behind_words(text, 1).split() else {
        return Blame::Word(text.end(), Wanted::OfScript(OfScript::Program));
    };
    match plant.find_instance(name.text) {
        Some(program) => Blame::Condition(behind_words(text, count), program),
        None => Blame::Missing(name.span(), Sought::Program),
    }
}

/// What makes a text no command of a script.
pub fn command_blame<'a>(plant: &Plant, text: Piece<'a>) -> Blame<'a> {
    match text_fault(text.text) {
        Some(LineFault::Word(place, wanted)) => {
            let rest = behind_words(text, place.saturating_sub(1));
            Blame::of_first(rest, Wanted::OfScript(wanted))
        }
        Some(LineFault::Condition(place)) => awaited_blame(plant, text, place.saturating_sub(1)),
        None => Blame::of_first(text, Wanted::OfScript(OfScript::Command)),
    }
}

// Whether the word is a duration above 0.
fn is_period(word: Piece<'_>) -> bool {
    match duration(word.text) {
        Some(micros) => micros > 0,
        None => false,
    }
}

/// What makes a text no duration with a command.
pub fn every_blame<'a>(plant: &Plant, text: Piece<'a>) -> Blame<'a> {
    match text.split() {
        Some((word, behind)) if is_period(word) => command_blame(plant, behind),
        _ => Blame::of_first(text, Wanted::Period),
    }
}

/// What makes a text no instant with a command.
pub fn at_blame<'a>(plant: &Plant, text: Piece<'a>) -> Blame<'a> {
    match text.split() {
        Some((word, behind)) if read_instant(word.text).is_some() => command_blame(plant, behind),
        _ => Blame::of_first(text, Wanted::Instant),
    }
}

// The type of a variable, where a ramp may write it.
fn ramp_type(plant: &Plant, variable: VarId) -> Option<VarType> {
    match plant.variable(variable)?.var_type {
        VarType::Int => Some(VarType::Int),
        VarType::Dint => Some(VarType::Dint),
        _ => None,
    }
}

// Whether the word is a number of the type.
fn is_number(var_type: VarType, word: Piece<'_>) -> bool {
    match dint(word.text) {
        Some(number) => var_type == VarType::Dint || i16::try_from(number).is_ok(),
        None => false,
    }
}

// What makes a text no two numbers of the type with a duration; None where it is that.
fn numbers_blame(var_type: VarType, text: Piece<'_>) -> Option<Blame<'_>> {
    let mut rest = text;
    for _number in 0..2 {
        match rest.split() {
            Some((word, behind)) if is_number(var_type, word) => rest = behind,
            _ => return Some(Blame::of_first(rest, Wanted::Number)),
        }
    }
    match rest.split() {
        Some((word, behind)) if is_period(word) => {
            Some(behind_end(behind).unwrap_or(Blame::Word(word, Wanted::RampTime)))
        }
        _ => Some(Blame::of_first(rest, Wanted::Period)),
    }
}

/// What makes a text no variable with two numbers and a duration; None where it is that.
pub fn ramp_blame<'a>(plant: &Plant, text: Piece<'a>) -> Option<Blame<'a>> {
    let Some((name, behind)) = text.split() else {
        return Some(Blame::Word(text.end(), Wanted::NumberVariable));
    };
    let Some(variable) = plant.find_variable(name.text) else {
        return Some(Blame::Missing(name.span(), Sought::Variable));
    };
    match ramp_type(plant, variable) {
        Some(var_type) => numbers_blame(var_type, behind),
        None => Some(Blame::Word(name, Wanted::NumberVariable)),
    }
}
