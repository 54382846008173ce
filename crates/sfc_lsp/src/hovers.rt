//! What is told of the word at a place.

use crate::answer::Answer;
use crate::asked::{Asked, place_in_chart};
use crate::language::Language;
use crate::values::{markup_value, range_value};
use serde_json::{Value, json};
use sfc_names::card::Card;
use sfc_names::cards::{card_of, card_of_item};
use sfc_names::chart::Chart;
use sfc_names::meaning::meaning_at;
use sfc_names::refusals::card_of_refusal;
use sfc_names::script::ScriptLine;
use sfc_names::sfc_places::span::Span;
use sfc_names::testing::meaning_in_tests;
use std::alloc::AllocError;

// What is told, and of which bytes.
fn hover_value(asked: &Asked<'_>, card: &Card, span: Span) -> Result<Value, AllocError> {
    let alloc = asked.alloc;
    let is_markdown = asked.client.has_markdown;
    let text = card.text(is_markdown)?;
    let contents = markup_value(alloc, &text, is_markdown)?;
    let range = range_value(alloc, asked.document, span)?;
    json!(in alloc; {"contents": contents, "range": range})
}

// What is told of a word of a chart.
fn hover_in_chart(asked: &Asked<'_>, byte: usize) -> Result<Answer, AllocError> {
    let Some(chart) = asked.chart() else {
        return Ok(Answer::nothing());
    };
    let Some(meaning) = meaning_at(chart, place_in_chart(byte)) else {
        return Ok(Answer::nothing());
    };
    let card = card_of(asked.alloc, chart, meaning)?;
    let value = hover_value(asked, &card, Span::of(meaning.span))?;
    Ok(Answer::Done(value))
}

// What is told of a word of a script: of a refusal, or of what it names in its chart.
fn card_in_script(
    asked: &Asked<'_>,
    line: &ScriptLine<'_>,
    place: usize,
) -> Result<Option<Card>, AllocError> {
    if let Some(explanation) = line.refusal(place) {
        return Ok(Some(card_of_refusal(asked.alloc, explanation)?));
    }
    let Some(chart) = asked.other_chart() else {
        return Ok(None);
    };
    match line.meaning(chart, place) {
        Some(declared) => Ok(Some(card_of_item(asked.alloc, chart, declared.item)?)),
        None => Ok(None),
    }
}

// What is told of a word of a script.
fn hover_in_script(asked: &Asked<'_>, byte: usize) -> Result<Answer, AllocError> {
    let line = ScriptLine::around(asked.alloc, &asked.document.text, byte)?;
    let Some(place) = line.place_of(byte) else {
        return Ok(Answer::nothing());
    };
    match card_in_script(asked, &line, place)? {
        Some(card) => Ok(Answer::Done(hover_value(asked, &card, line.span(place))?)),
        None => Ok(Answer::nothing()),
    }
}

// What is told of a word of a file of tests: of a refusal, or of what it names in its chart.
fn hover_in_tests(asked: &Asked<'_>, byte: usize) -> Result<Answer, AllocError> {
    let named = match asked.other_chart() {
        Some(chart) => named_in_tests(asked, chart, byte)?,
        None => None,
    };
    match named {
        Some(value) => Ok(Answer::Done(value)),
        None => hover_in_script(asked, byte),
    }
}

// What is told of a name of a file of tests.
fn named_in_tests(
    asked: &Asked<'_>,
    chart: &Chart,
    byte: usize,
) -> Result<Option<Value>, AllocError> {
    let Some((span, declared)) = meaning_in_tests(chart, &asked.document.text, byte) else {
        return Ok(None);
    };
    let card = card_of_item(asked.alloc, chart, declared.item)?;
    Ok(Some(hover_value(asked, &card, span)?))
}

/// What is told of the word at a place; null where there is nothing. The one error is that memory was refused.
pub fn hover(asked: &Asked<'_>) -> Result<Answer, AllocError> {
    let Some(byte) = asked.byte() else {
        return Ok(Answer::wrong());
    };
    match asked.document.language() {
        Language::Chart => hover_in_chart(asked, byte),
        Language::Script => hover_in_script(asked, byte),
        Language::Tests => hover_in_tests(asked, byte),
    }
}
