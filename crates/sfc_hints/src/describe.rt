//! Elements of a text in words.

use sfc_page::append::append_number;
use sfc_places::declared::{Declared, Kind};
use sfc_places::finding::{Element, Part};
use sfc_places::marks::spelling_at;
use sfc_tokens::token::Token;
use std::alloc::AllocError;

// A number, which an element is counted by.
fn add_count(told: &mut Vec<u8>, before: &[u8], number: usize) -> Result<(), AllocError> {
    told.extend_from_slice(before)?;
    append_number(told, number as u64)
}

// What an element is, and its name, if it stands there.
fn add_named(
    told: &mut Vec<u8>,
    tokens: &[Token],
    before: &[u8],
    name: usize,
) -> Result<(), AllocError> {
    told.extend_from_slice(before)?;
    let spelling = spelling_at(tokens, name);
    if spelling.is_empty() {
        return Ok(());
    }
    told.extend_from_slice(b" ")?;
    told.extend_from_slice(spelling)
}

// What an element of a program type is, its name, and the program type.
fn add_inside(
    told: &mut Vec<u8>,
    tokens: &[Token],
    before: &[u8],
    name: usize,
    program: usize,
) -> Result<(), AllocError> {
    add_named(told, tokens, before, name)?;
    add_named(told, tokens, b" of PROGRAM", program)
}

// A name in parentheses.
fn add_in_parentheses(told: &mut Vec<u8>, name: &[u8]) -> Result<(), AllocError> {
    told.extend_from_slice(b" (")?;
    told.extend_from_slice(name)?;
    told.extend_from_slice(b")")
}

// A transition by its number, and by its name if it has one.
fn add_transition(
    told: &mut Vec<u8>,
    tokens: &[Token],
    number: usize,
    name: Option<usize>,
    program: usize,
) -> Result<(), AllocError> {
    add_count(told, b"transition ", number)?;
    if let Some(name) = name {
        add_in_parentheses(told, spelling_at(tokens, name))?;
    }
    add_named(told, tokens, b" of PROGRAM", program)
}

/// Adds what an element is: of a program type, a step, a transition, an action, a variable, a task or an instance its
/// name. The one error is that memory was refused.
pub fn add_element(
    told: &mut Vec<u8>,
    tokens: &[Token],
    element: Element,
) -> Result<(), AllocError> {
    match element {
        Element::Text => told.extend_from_slice(b"the text, outside PROGRAM and CONFIGURATION"),
        Element::Configuration { name } => add_named(told, tokens, b"CONFIGURATION", name),
        Element::Resource { name } => add_named(told, tokens, b"RESOURCE", name),
        Element::Global { name } => {
            add_named(told, tokens, b"variable", name)?;
            told.extend_from_slice(b" of VAR_GLOBAL")
        }
        Element::Task { name } => add_named(told, tokens, b"task", name),
        Element::Instance { name } => add_named(told, tokens, b"instance", name),
        Element::Program { name } => add_named(told, tokens, b"PROGRAM", name),
        Element::Local { program, name } => { add_inside(told, tokens, b"variable", name, program) }
        Element::External { program, name } => {
            add_inside(told, tokens, b"external", name, program)
        }
        Element::Step { program, name } => add_inside(told, tokens, b"step", name, program),
        Element::Transition {
            program,
            number,
            name,
        } => add_transition(told, tokens, number, name, program),
        Element::Action { program, name } => add_inside(told, tokens, b"action", name, program),
    }
}

/// Adds which part of an element it is. The one error is that memory was refused.
pub fn add_part(told: &mut Vec<u8>, part: Part) -> Result<(), AllocError> {
    match part {
        Part::Whole => Ok(()),
        Part::Name => told.extend_from_slice(b", its name"),
        Part::Location => told.extend_from_slice(b", its location"),
        Part::InitialValue => told.extend_from_slice(b", its initial value"),
        Part::Type => told.extend_from_slice(b", its type"),
        Part::Single => told.extend_from_slice(b", its SINGLE"),
        Part::Interval => told.extend_from_slice(b", its INTERVAL"),
        Part::TaskName => told.extend_from_slice(b", its task"),
        Part::ProgramType => told.extend_from_slice(b", its program type"),
        Part::Association(number) => add_count(told, b", the action of association ", number),
        Part::AssociationTime(number) => add_count(told, b", the time of association ", number),
        Part::Indicator(number) => add_count(told, b", an indicator of association ", number),
        Part::From => told.extend_from_slice(b", behind FROM"),
        Part::To => told.extend_from_slice(b", behind TO"),
        Part::Condition => told.extend_from_slice(b", its condition"),
        Part::Statement(number) => add_count(told, b", statement ", number),
    }
}

// What a name is declared as.
fn kind_text(kind: Kind) -> &'static [u8] {
    match kind {
        Kind::Global(_) => b"VAR_GLOBAL",
        Kind::Local(_) => b"VAR",
        Kind::External(_) => b"VAR_EXTERNAL",
        Kind::Step => b"STEP",
        Kind::InitialStep => b"INITIAL_STEP",
        Kind::Transition => b"TRANSITION",
        Kind::Action => b"ACTION",
        Kind::Task => b"TASK",
        Kind::ProgramType => b"PROGRAM",
        Kind::Instance => b"PROGRAM instance",
    }
}

/// Adds a declared name, what it is declared as, and its line: `Lamp (VAR_GLOBAL, line 52)`. The one error is that memory was
/// refused.
pub fn add_declared(
    told: &mut Vec<u8>,
    tokens: &[Token],
    declared: Declared,
    line: u32,
) -> Result<(), AllocError> {
    told.extend_from_slice(spelling_at(tokens, declared.token))?;
    told.extend_from_slice(b" (")?;
    told.extend_from_slice(kind_text(declared.kind))?;
    told.extend_from_slice(b", line ")?;
    append_number(told, u64::from(line))?;
    told.extend_from_slice(b")")
}
