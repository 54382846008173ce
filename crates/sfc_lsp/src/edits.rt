//! Other names, and other blanks before lines.

use crate::answer::Answer;
use crate::asked::{Asked, place_in_chart};
use crate::language::Language;
use crate::params::text_in;
use crate::values::{changes_value, edit_value, range_value, text_value};
use serde_json::{Value, json};
use sfc_names::indents::indent;
use sfc_names::meaning::{Sense, meaning_at};
use sfc_names::renaming::{Renaming, rename as renaming_of};
use sfc_names::sfc_outline::mention::Declared;
use sfc_names::sfc_places::span::Span;
use sfc_wire::error_code::ErrorCode;
use std::alloc::AllocError;

// The name at a byte that may get another one, its bytes and what it means.
fn name_at(asked: &Asked<'_>, byte: usize) -> Option<(Span, Declared)> {
    let chart = asked.chart()?;
    let meaning = meaning_at(chart, place_in_chart(byte))?;
    match meaning.sense {
        Sense::Named(declared) => Some((Span::of(meaning.span), declared)),
        _ => None,
    }
}

/// The name at a place that may get another one; null where there is none. The one error is that memory was refused.
pub fn prepare_rename(asked: &Asked<'_>) -> Result<Answer, AllocError> {
    let alloc = asked.alloc;
    let Some(byte) = asked.byte() else {
        return Ok(Answer::wrong());
    };
    let Some((span, _)) = name_at(asked, byte) else {
        return Ok(Answer::nothing());
    };
    let name = asked.document.text.get(span.from..span.to).unwrap_or(b"");
    let placeholder = text_value(alloc, name)?;
    let range = range_value(alloc, asked.document, span)?;
    let value = json!(in alloc; {"placeholder": placeholder, "range": range})?;
    Ok(Answer::Done(value))
}

// The changes that give another name, at these bytes.
fn names_value(
    asked: &Asked<'_>,
    spans: &[sfc_names::sfc_tokens::span::Span],
    name: &str,
) -> Result<Value, AllocError> {
    let mut edits = Vec::new(asked.alloc);
    for span in spans {
        let span = Span::of(*span);
        edits.push(edit_value(asked.alloc, asked.document, span, name.as_bytes())?)?;
    }
    changes_value(asked.alloc, asked.uri, edits)
}

/// The changes that give another name to what the word at a place means; refused where the chart would mean something else, with the
/// reason. The one error is that memory was refused.
pub fn rename(asked: &Asked<'_>) -> Result<Answer, AllocError> {
    let (Some(byte), Some(name)) = (asked.byte(), text_in(asked.params, "newName")) else {
        return Ok(Answer::wrong());
    };
    let (Some(chart), Some((_, declared))) = (asked.chart(), name_at(asked, byte)) else {
        return Ok(Answer::Refused(
            ErrorCode::InvalidParams,
            "there is no name that is declared here",
        ));
    };
    match renaming_of(asked.alloc, chart, declared, name.as_bytes())? {
        Renaming::Names(spans) => Ok(Answer::Done(names_value(asked, &spans, name)?)),
        Renaming::Refused(fault) => Ok(Answer::Refused(ErrorCode::InvalidParams, fault.text())),
    }
}

/// The change that puts two blanks for each block before the lines of a chart; none where anything else would change. The one error is
/// that memory was refused.
pub fn formatting(asked: &Asked<'_>) -> Result<Answer, AllocError> {
    let alloc = asked.alloc;
    let text = asked.document.text.as_slice();
    let mut list = Vec::new(alloc);
    if asked.document.language() == Language::Chart {
        match indent(alloc, text)? {
            Some(other) if other.as_slice() != text => {
                let whole = Span {
                    from: 0,
                    to: text.len(),
                };
                list.push(edit_value(alloc, asked.document, whole, &other)?)?;
            }
            _ => {}
        }
    }
    Ok(Answer::Done(Value::Array(list)))
}
