//! What mends faults.

use crate::answer::Answer;
use crate::asked::Asked;
use crate::language::Language;
use crate::params::{member, range_in};
use crate::positions::byte_of;
use crate::values::{changes_value, edit_value, text_value};
use serde_json::{Value, json};
use sfc_names::mending::{Mend, mends_of};
use sfc_names::sfc_places::span::Span;
use std::alloc::AllocError;

// The bytes that are asked for.
fn touched(asked: &Asked<'_>) -> Option<Span> {
    let range = range_in(member(asked.params, "range"))?;
    let document = asked.document;
    Some(Span {
        from: byte_of(&document.text, &document.starts, range.from),
        to: byte_of(&document.text, &document.starts, range.to),
    })
}

// What mends a fault.
fn action_value(asked: &Asked<'_>, mend: &Mend) -> Result<Value, AllocError> {
    let alloc = asked.alloc;
    let title = text_value(alloc, &mend.title)?;
    let mut edits = Vec::new(alloc);
    edits.push(edit_value(alloc, asked.document, mend.span, &mend.text)?)?;
    let edit = changes_value(alloc, asked.uri, edits)?;
    json!(in alloc; {"edit": edit, "kind": "quickfix", "title": title})
}

/// What mends the faults of a chart in a range. The one error is that memory was refused.
pub fn code_actions(asked: &Asked<'_>) -> Result<Answer, AllocError> {
    let alloc = asked.alloc;
    let Some(touched) = touched(asked) else {
        return Ok(Answer::wrong());
    };
    let mut list = Vec::new(alloc);
    if asked.document.language() == Language::Chart {
        for mend in &mends_of(alloc, &asked.document.text, touched)? {
            list.push(action_value(asked, mend)?)?;
        }
    }
    Ok(Answer::Done(Value::Array(list)))
}

// A command above the first line of a chart.
fn lens_value(asked: &Asked<'_>, title: &str, command: &str) -> Result<Value, AllocError> {
    let alloc = asked.alloc;
    let uri = asked.uri;
    let start = json!(in alloc; {"character": 0, "line": 0})?;
    let end = json!(in alloc; {"character": 0, "line": 0})?;
    let arguments = json!(in alloc; [uri])?;
    json!(in alloc; {
        "command": {"arguments": arguments, "command": command, "title": title},
        "range": {"end": end, "start": start}
    })
}

/// The commands above the first line of a chart: to debug, to test and to draw it. The one error is that memory was refused.
pub fn code_lenses(asked: &Asked<'_>) -> Result<Answer, AllocError> {
    let mut list = Vec::new(asked.alloc);
    if asked.document.language() == Language::Chart {
        list.push(lens_value(asked, "Debug", "sfcmon.debug")?)?;
        list.push(lens_value(asked, "Test", "sfcmon.test")?)?;
        list.push(lens_value(asked, "Draw", "sfcmon.draw")?)?;
    }
    Ok(Answer::Done(Value::Array(list)))
}
