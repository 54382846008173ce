//! The commands of a script: a keyword, and what stands behind it on its line.

ghost use Rattle.std.specs.Prelude.{◌≡◌, MatchOption, Some, None};
ghost use Rattle.sfc_debug.specs.sfc_core.Agreement.{plant_of};
ghost use Rattle.sfc_script.specs.Commands as commands;
ghost use Rattle.sfc_script.specs.Private.Reading.{as_conditional};

use crate::names::{program_of, task_of, type_of, variable_of};
use crate::point::{Place, first_place, only_place};
use crate::sfc_core::resource::Resource;
use crate::split::{first_word, only_word, two_words};
use crate::value::value_of_word;
use sfc_base::case::is_same_word;
use sfc_base::ids::VarId;
use sfc_base::value::Value;
use sfc_events::command::Command;
use sfc_plant::plant::Plant;
use sfc_tokens::duration::duration;

/// A breakpoint with a condition, whose text is not read yet.
#[derive(Clone, Copy)]
pub struct Conditional<'a> {
    pub place: Place,
    pub text: &'a [u8],
}

// A variable and a value, which are the words of the text.
fn assigned(plant: &Plant, rest: &[u8]) -> Option<(VarId, Value)>
    ensures { result ≡ commands.assigned plant.now rest.now }
{
    let (name, word) = two_words(rest)?;
    let id = variable_of(plant, name);
    let value = value_of_word(type_of(plant, id), word)?;
    Some((id, value))
}

// SCAN task
fn scan(plant: &Plant, rest: &[u8]) -> Option<Command>
    ensures { result ≡ commands.scan_of plant.now rest.now }
{
    let name = only_word(rest)?;
    Some(Command::Scan(task_of(plant, name)))
}

// INPUT variable value
fn input(plant: &Plant, rest: &[u8]) -> Option<Command>
    ensures { result ≡ commands.input_of plant.now rest.now }
{
    let (id, value) = assigned(plant, rest)?;
    Some(Command::Input(id, value))
}

// FORCE variable value
fn force(plant: &Plant, rest: &[u8]) -> Option<Command>
    ensures { result ≡ commands.force_of plant.now rest.now }
{
    let (id, value) = assigned(plant, rest)?;
    Some(Command::Force(id, value))
}

// RELEASE variable
fn release(plant: &Plant, rest: &[u8]) -> Option<Command>
    ensures { result ≡ commands.release_of plant.now rest.now }
{
    let name = only_word(rest)?;
    Some(Command::Release(variable_of(plant, name)))
}

// RESET program
fn reset(plant: &Plant, rest: &[u8]) -> Option<Command>
    ensures { result ≡ commands.reset_of plant.now rest.now }
{
    let name = only_word(rest)?;
    Some(Command::Reset(program_of(plant, name)))
}

// READ variable
fn read(plant: &Plant, rest: &[u8]) -> Option<Command>
    ensures { result ≡ commands.read_of plant.now rest.now }
{
    let name = only_word(rest)?;
    Some(Command::Read(variable_of(plant, name)))
}

// BREAK program point
fn set_break(resource: &Resource, rest: &[u8]) -> Option<Command>
    ensures { result ≡ commands.break_of (plant_of resource.now) rest.now }
{
    let place = only_place(resource, rest)?;
    Some(Command::Break(place.program, place.point))
}

// UNBREAK program point
fn unbreak(resource: &Resource, rest: &[u8]) -> Option<Command>
    ensures { result ≡ commands.unbreak_of (plant_of resource.now) rest.now }
{
    let place = only_place(resource, rest)?;
    Some(Command::Unbreak(place.program, place.point))
}

// SINGLE task duration
fn single(plant: &Plant, rest: &[u8]) -> Option<Command>
    ensures { result ≡ commands.single_of plant.now rest.now }
{
    let (name, word) = two_words(rest)?;
    let micros = duration(word)?;
    Some(Command::Single(task_of(plant, name), micros))
}

// STOP, GO, END and EPOCH
fn bare_word(keyword: &[u8]) -> Option<Command>
    ensures { result ≡ commands.bare_word keyword.now }
{
    if is_same_word(keyword, b"STOP") {
        Some(Command::Stop)
    } else if is_same_word(keyword, b"GO") {
        Some(Command::Go)
    } else if is_same_word(keyword, b"END") {
        Some(Command::End)
    } else if is_same_word(keyword, b"EPOCH") {
        Some(Command::Epoch)
    } else {
        None
    }
}

// The command of a keyword that has nothing behind it.
fn bare(keyword: &[u8], rest: &[u8]) -> Option<Command>
    ensures { result ≡ commands.bare_of keyword.now rest.now }
{
    if first_word(rest).is_some() {
        return None;
    }
    bare_word(keyword)
}

// A command of the debugger's own: its keyword, and the rest of its line.
fn debugging(resource: &Resource, keyword: &[u8], rest: &[u8]) -> Option<Command>
    ensures { result ≡ commands.debugging_of (plant_of resource.now) keyword.now rest.now }
{
    if is_same_word(keyword, b"READ") {
        read(resource.plant(), rest)
    } else if is_same_word(keyword, b"BREAK") {
        set_break(resource, rest)
    } else if is_same_word(keyword, b"UNBREAK") {
        unbreak(resource, rest)
    } else if is_same_word(keyword, b"SINGLE") {
        single(resource.plant(), rest)
    } else {
        bare(keyword, rest)
    }
}

// A command without a condition: its keyword, and the rest of its line.
fn command_by(resource: &Resource, keyword: &[u8], rest: &[u8]) -> Option<Command>
    ensures { result ≡ commands.command_by (plant_of resource.now) keyword.now rest.now }
{
    let plant = resource.plant();
    if is_same_word(keyword, b"SCAN") {
        scan(plant, rest)
    } else if is_same_word(keyword, b"INPUT") {
        input(plant, rest)
    } else if is_same_word(keyword, b"FORCE") {
        force(plant, rest)
    } else if is_same_word(keyword, b"RELEASE") {
        release(plant, rest)
    } else if is_same_word(keyword, b"RESET") {
        reset(plant, rest)
    } else {
        debugging(resource, keyword, rest)
    }
}

/// The command that the text is, over the names of the resource's plant, where it is one without a condition: what a
/// line of a script has behind its instant. A name that isn't found stands as a number that no plant has: 65,535 for a
/// variable, a step, a transition or an action, 255 for a task or a program instance. It takes no memory.
pub fn read_command(resource: &Resource, text: &[u8]) -> Option<Command>
    ensures { result ≡ commands.command_of (plant_of resource.now) text.now }
{
    let (keyword, rest) = first_word(text)?;
    command_by(resource, keyword, rest)
}

// program point WHEN text
fn when<'a>(resource: &Resource, rest: &'a [u8]) -> Option<Conditional<'a>>
    ensures { MatchOption result (commands.when_of (plant_of resource.now) rest.now ≡ None)
        (λ c. commands.when_of (plant_of resource.now) rest.now ≡ Some (as_conditional c)) }
{
    let (place, behind) = first_place(resource, rest)?;
    let (keyword, text) = first_word(behind)?;
    if !is_same_word(keyword, b"WHEN") {
        return None;
    }
    Some(Conditional { place, text })
}

/// The breakpoint with a condition that the text is, if it is one: `BREAK`, a program instance and one of its points,
/// `WHEN`, and the text of the condition, which is not read here. It takes no memory.
pub fn read_conditional<'a>(resource: &Resource, text: &'a [u8]) -> Option<Conditional<'a>>
    ensures { MatchOption result (commands.conditional_of (plant_of resource.now) text.now ≡ None)
        (λ c. commands.conditional_of (plant_of resource.now) text.now ≡ Some (as_conditional c)) }
{
    let (keyword, rest) = first_word(text)?;
    if !is_same_word(keyword, b"BREAK") {
        return None;
    }
    when(resource, rest)
}
