//! Where something is declared, and where it is named.

use crate::answer::Answer;
use crate::asked::{Asked, place_in_chart};
use crate::companion::Companion;
use crate::language::Language;
use crate::params::{is_set, member};
use crate::values::{location_value, range_value};
use serde_json::{Value, json};
use sfc_names::chart::Chart;
use sfc_names::meaning::meaning_at;
use sfc_names::script::ScriptLine;
use sfc_names::sfc_outline::mention::Declared;
use sfc_names::sfc_places::span::Span;
use sfc_names::testing::meaning_in_tests;
use sfc_names::uses::{Uses, uses_of};
use std::alloc::{AllocError, Global};

// What the word at a byte of a chart means that is declared.
fn declared_at(chart: &Chart, byte: usize) -> Option<Declared> {
    meaning_at(chart, place_in_chart(byte))?.declared()
}

// A list of one value.
fn only(alloc: Global, value: Value) -> Result<Value, AllocError> {
    let mut list = Vec::new(alloc);
    list.push(value)?;
    Ok(Value::Array(list))
}

// Where the word of a chart is declared.
fn definition_in_chart(asked: &Asked<'_>, byte: usize) -> Result<Answer, AllocError> {
    let Some(chart) = asked.chart() else {
        return Ok(Answer::nothing());
    };
    let Some(declared) = declared_at(chart, byte) else {
        return Ok(Answer::nothing());
    };
    let span = Span::of(declared.name);
    let value = location_value(asked.alloc, asked.uri, asked.document, span)?;
    Ok(Answer::Done(only(asked.alloc, value)?))
}

// What a word of a script means in its chart.
fn declared_in_script(
    asked: &Asked<'_>,
    companion: &Companion<'_>,
    byte: usize,
) -> Result<Option<Declared>, AllocError> {
    let Some(chart) = companion.document().current() else {
        return Ok(None);
    };
    if asked.document.language() == Language::Tests {
        return Ok(match meaning_in_tests(chart, &asked.document.text, byte) {
            Some((_, declared)) => Some(declared),
            None => None,
        });
    }
    let line = ScriptLine::around(asked.alloc, &asked.document.text, byte)?;
    match line.place_of(byte) {
        Some(place) => Ok(line.meaning(chart, place)),
        None => Ok(None),
    }
}

// Where the word of a script is declared in its chart.
fn definition_in_script(asked: &Asked<'_>, byte: usize) -> Result<Answer, AllocError> {
    let Some(companion) = asked.companion else {
        return Ok(Answer::nothing());
    };
    let Some(declared) = declared_in_script(asked, companion, byte)? else {
        return Ok(Answer::nothing());
    };
    let span = Span::of(declared.name);
    let value = location_value(asked.alloc, companion.uri(), companion.document(), span)?;
    Ok(Answer::Done(only(asked.alloc, value)?))
}

/// Where the word at a place is declared; null where it isn't. The one error is that memory was refused.
pub fn definition(asked: &Asked<'_>) -> Result<Answer, AllocError> {
    let Some(byte) = asked.byte() else {
        return Ok(Answer::wrong());
    };
    match asked.document.language() {
        Language::Chart => definition_in_chart(asked, byte),
        Language::Script | Language::Tests => definition_in_script(asked, byte),
    }
}

// The names that mean what the word at a byte means.
fn uses_at(asked: &Asked<'_>, byte: usize, uses: Uses) -> Result<Option<Vec<Span>>, AllocError> {
    let Some(chart) = asked.chart() else {
        return Ok(None);
    };
    let Some(declared) = declared_at(chart, byte) else {
        return Ok(None);
    };
    let mut spans = Vec::new(asked.alloc);
    for span in uses_of(asked.alloc, chart, declared, uses)? {
        spans.push(Span::of(span))?;
    }
    Ok(Some(spans))
}

/// Where that is named which the word at a place means, and where it is declared, if that is asked for; null where it isn't. The one
/// error is that memory was refused.
pub fn references(asked: &Asked<'_>) -> Result<Answer, AllocError> {
    let Some(byte) = asked.byte() else {
        return Ok(Answer::wrong());
    };
    let uses = if is_set(member(asked.params, "context"), "includeDeclaration") {
        Uses::WithDeclaration
    } else {
        Uses::Alone
    };
    let Some(spans) = uses_at(asked, byte, uses)? else {
        return Ok(Answer::nothing());
    };
    let mut list = Vec::new(asked.alloc);
    for span in spans {
        list.push(location_value(asked.alloc, asked.uri, asked.document, span)?)?;
    }
    Ok(Answer::Done(Value::Array(list)))
}

/// Where that stands in the document which the word at a place means; null where it isn't declared. The one error is that memory was
/// refused.
pub fn highlights(asked: &Asked<'_>) -> Result<Answer, AllocError> {
    let alloc = asked.alloc;
    let Some(byte) = asked.byte() else {
        return Ok(Answer::wrong());
    };
    let Some(spans) = uses_at(asked, byte, Uses::WithDeclaration)? else {
        return Ok(Answer::nothing());
    };
    let mut list = Vec::new(alloc);
    for span in spans {
        let range = range_value(alloc, asked.document, span)?;
        list.push(json!(in alloc; {"kind": 1, "range": range})?)?;
    }
    Ok(Answer::Done(Value::Array(list)))
}
