//! Texts to trees: a text stands alone in a small chart, which is read.

use crate::ending::Ending;
use sfc_events::read_error::ReadErrorKind;
use sfc_text::expression::Expression;
use sfc_text::read::read;
use sfc_text::statement::Statement;
use sfc_text::tree::{Element, Source};
use std::alloc::{AllocError, Global};

// What stands behind the one element of the chart.
const END: &[u8] = b"
END_PROGRAM CONFIGURATION C RESOURCE R ON Plc PROGRAM P : Mix; END_RESOURCE END_CONFIGURATION
";

// The chart whose one element is the text between its begin and its end.
fn chart(alloc: Global, begin: &[u8], text: &str, end: &[u8]) -> Result<Vec<u8>, AllocError> {
    let mut chart = Vec::new(alloc);
    chart.extend_from_slice(b"PROGRAM Mix ")?;
    chart.extend_from_slice(begin)?;
    chart.extend_from_slice(text.as_bytes())?;
    chart.extend_from_slice(end)?;
    chart.extend_from_slice(END)?;
    Ok(chart)
}

/// A chart with the expression as the condition of its one transition.
pub fn with_condition(alloc: Global, text: &str) -> Result<Source, Ending> {
    let chart = chart(
        alloc,
        b"TRANSITION FROM S TO S :=\n",
        text,
        b"\n; END_TRANSITION",
    )?;
    Ok(read(alloc, &chart)?)
}

/// A chart with the statements as the body of its one action.
pub fn with_body(alloc: Global, text: &str) -> Result<Source, Ending> {
    let chart = chart(alloc, b"ACTION A:\n", text, b"\nEND_ACTION")?;
    Ok(read(alloc, &chart)?)
}

// The one element of a chart; a text that ends it and begins another is no expression and no body.
fn element(source: &Source) -> Result<&Element, Ending> {
    if let [program] = source.programs.as_slice() {
        if let [element] = program.elements.as_slice() {
            return Ok(element);
        }
    }
    Err(Ending::NotRead(ReadErrorKind::Syntax))
}

/// The condition of the one transition.
pub fn condition(source: &Source) -> Result<&Expression, Ending> {
    match element(source)? {
        Element::Transition(transition, _) => Ok(&transition.condition),
        _ => Err(Ending::NotRead(ReadErrorKind::Syntax)),
    }
}

/// The body of the one action.
pub fn body(source: &Source) -> Result<&[Statement], Ending> {
    match element(source)? {
        Element::Action(action, _) => Ok(action.body.as_slice()),
        _ => Err(Ending::NotRead(ReadErrorKind::Syntax)),
    }
}
