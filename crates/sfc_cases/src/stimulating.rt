//! What stands behind EVERY, AT and RAMP.

ghost use Rattle.std.specs.Prelude.{◌≡◌, None, Some, MatchOption, option_map};
ghost use Rattle.sfc_debug.specs.sfc_core.Agreement.{plant_of};
ghost use Rattle.sfc_script.specs.Names as names;
ghost use Rattle.sfc_cases.specs.Stimuli as stimuli;

use crate::instant::{Instant, read_instant};
use crate::sfc_core::resource::Resource;
use crate::stimulus::{Change, Stimulus};
use sfc_base::case::is_same_word;
use sfc_base::ids::VarId;
use sfc_base::value::Value;
use sfc_base::var_type::VarType;
use sfc_events::command::Command;
use sfc_plant::plant::Plant;
use sfc_script::command::read_command;
use sfc_script::number::dint;
use sfc_script::split::{first_word, two_words};
use sfc_tokens::duration::duration;

// The variable of this name; else a number that no plant has.
fn variable_of(plant: &Plant, name: &[u8]) -> VarId
    ensures { result ≡ names.variable_of plant.now name.now }
{
    plant.find_variable(name).unwrap_or(VarId(65535))
}

// A duration above 0.
fn if_positive(micros: i64) -> Option<i64>
    ensures { result ≡ stimuli.if_positive micros }
{
    if micros > 0 { Some(micros) } else { None }
}

// The duration above 0 that a word is.
fn positive(word: &[u8]) -> Option<i64>
    ensures { result ≡ stimuli.positive word.now }
{
    let micros = duration(word)?;
    if_positive(micros)
}

// variable TOGGLE: TRUE at first.
fn toggle(plant: &Plant, text: &[u8]) -> Option<(Command, Change)>
    ensures { result ≡ stimuli.toggle_in plant.now text.now }
{
    let (name, word) = two_words(text)?;
    if !is_same_word(word, b"TOGGLE") {
        return None;
    }
    let id = variable_of(plant, name);
    Some((Command::Input(id, Value::Bool(true)), Change::Toggles))
}

// INPUT variable TOGGLE
fn toggled(plant: &Plant, text: &[u8]) -> Option<(Command, Change)>
    ensures { result ≡ stimuli.toggled plant.now text.now }
{
    let (word, behind) = first_word(text)?;
    if !is_same_word(word, b"INPUT") {
        return None;
    }
    toggle(plant, behind)
}

// INPUT variable TOGGLE, or a command of a script.
fn repeated(resource: &Resource, text: &[u8]) -> Option<(Command, Change)>
    ensures { result ≡ stimuli.repeated_of (plant_of resource.now) text.now }
{
    if let Some(toggled) = toggled(resource.plant(), text) {
        return Some(toggled);
    }
    let command = read_command(resource, text)?;
    Some((command, Change::Stays))
}

/// What stands behind EVERY: a duration, and what is given again and again; None where it isn't that. It takes no memory.
pub fn read_every(resource: &Resource, text: &[u8]) -> Option<Stimulus>
    ensures { result ≡ stimuli.every_of (plant_of resource.now) text.now }
{
    let (word, behind) = first_word(text)?;
    let period = positive(word)?;
    let (command, change) = repeated(resource, behind)?;
    Some(Stimulus {
        first: Instant::Later(period),
        period,
        left: None,
        command,
        change,
    })
}

/// What stands behind AT: an instant, and a command of a script; None where it isn't that. It takes no memory.
pub fn read_at(resource: &Resource, text: &[u8]) -> Option<Stimulus>
    ensures { result ≡ stimuli.at_of (plant_of resource.now) text.now }
{
    let (word, behind) = first_word(text)?;
    let first = read_instant(word)?;
    let command = read_command(resource, behind)?;
    Some(Stimulus {
        first,
        period: 0,
        left: Some(1),
        command,
        change: Change::Stays,
    })
}

// How far it is from one number to another.
fn span(from: i64, to: i64) -> i64
    ensures { result ≡ stimuli.span from to }
{
    if from <= to {
        to.saturating_sub(from)
    } else {
        from.saturating_sub(to)
    }
}

// Which way it is.
fn direction(from: i64, to: i64) -> Change
    ensures { result ≡ stimuli.direction from to }
{
    if from <= to {
        Change::Rises
    } else {
        Change::Falls
    }
}

// How far so many steps are apart in so many microseconds.
fn pace(micros: i64, steps: i64) -> i64
    ensures { result ≡ stimuli.pace micros steps }
{
    if steps > 0 {
        micros.wrapping_div(steps)
    } else {
        micros
    }
}

// A command for each number from the first to the last, in so many microseconds.
fn ramp_at(command: Command, from: i64, to: i64, micros: i64) -> Option<Stimulus>
    ensures { result ≡ stimuli.ramp_at command from to micros }
{
    let steps = span(from, to);
    let period = if_positive(pace(micros, steps))?;
    Some(Stimulus {
        first: Instant::Same,
        period,
        left: Some(steps.saturating_add(1)),
        command,
        change: direction(from, to),
    })
}

// The same from a value of a variable to another of its type, INT or DINT.
fn ramp_between(id: VarId, from: Value, to: Value, micros: i64) -> Option<Stimulus>
    ensures { result ≡ stimuli.ramp_between id from to micros }
{
    let command = Command::Input(id, from);
    match (from, to) {
        (Value::Int(first), Value::Int(last)) => {
            ramp_at(command, i64::from(first), i64::from(last), micros)
        }
        (Value::Dint(first), Value::Dint(last)) => {
            ramp_at(command, i64::from(first), i64::from(last), micros)
        }
        _ => None,
    }
}

// The value of a type that a number is, INT where it fits or DINT.
fn value_in(var_type: VarType, number: i32) -> Option<Value>
    ensures { result ≡ stimuli.value_in var_type number }
{
    match (var_type, number) {
        (VarType::Int, -32_768..=32_767) => Some(Value::Int(number as i16)),
        (VarType::Dint, _) => Some(Value::Dint(number)),
        _ => None,
    }
}

// The value of a type that a word is.
fn value_said(var_type: VarType, word: &[u8]) -> Option<Value>
    ensures { result ≡ stimuli.value_said var_type word.now }
{
    let number = dint(word)?;
    value_in(var_type, number)
}

// number number duration, of a variable.
fn ramp_of_variable(plant: &Plant, id: VarId, text: &[u8]) -> Option<Stimulus>
    ensures { result ≡ stimuli.ramp_of_variable plant.now id text.now }
{
    let variable = plant.variable(id)?;
    let (first, behind) = first_word(text)?;
    let (last, word) = two_words(behind)?;
    let from = value_said(variable.var_type, first)?;
    let to = value_said(variable.var_type, last)?;
    let micros = positive(word)?;
    ramp_between(id, from, to, micros)
}

/// What stands behind RAMP: a variable of type INT or DINT, two numbers of its range and a duration; None where it isn't that, or its steps
/// would be less than a microsecond apart. It takes no memory.
pub fn read_ramp(plant: &Plant, text: &[u8]) -> Option<Stimulus>
    ensures { result ≡ stimuli.ramp_of plant.now text.now }
{
    let (name, behind) = first_word(text)?;
    ramp_of_variable(plant, variable_of(plant, name), behind)
}
