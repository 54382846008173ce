//! What may stand at a place.

use crate::answer::Answer;
use crate::asked::Asked;
use crate::language::Language;
use crate::values::text_value;
use serde_json::{Value, json};
use sfc_names::completion::{Candidate, Sort, complete_chart};
use sfc_names::script::complete_script;
use sfc_names::testing::complete_tests;
use std::alloc::{AllocError, Global};

// The number of the protocol for a kind of words.
fn kind_number(sort: Sort) -> u32 {
    match sort {
        Sort::Action => 3,
        Sort::Part => 5,
        Sort::Variable => 6,
        Sort::ProgramType => 7,
        Sort::Instance => 9,
        Sort::Step => 10,
        Sort::Keyword | Sort::Command => 14,
        Sort::Qualifier => 20,
        Sort::Task => 21,
        Sort::Transition => 23,
    }
}

// A word that may stand there.
fn candidate_value(alloc: Global, candidate: &Candidate) -> Result<Value, AllocError> {
    let label = text_value(alloc, &candidate.word)?;
    let detail = text_value(alloc, &candidate.detail)?;
    json!(in alloc; {"detail": detail, "kind": (kind_number(candidate.sort)), "label": label})
}

// The words that may stand at a byte.
fn candidates_at(asked: &Asked<'_>, byte: usize) -> Result<Vec<Candidate>, AllocError> {
    let text = asked.document.text.as_slice();
    match asked.document.language() {
        Language::Chart => complete_chart(asked.alloc, text, byte, asked.last_chart()),
        Language::Script => complete_script(asked.alloc, text, byte, asked.last_chart()),
        Language::Tests => complete_tests(asked.alloc, text, byte, asked.last_chart()),
    }
}

/// What may stand at a place. The one error is that memory was refused.
pub fn completion(asked: &Asked<'_>) -> Result<Answer, AllocError> {
    let alloc = asked.alloc;
    let Some(byte) = asked.byte() else {
        return Ok(Answer::wrong());
    };
    let mut list = Vec::new(alloc);
    for candidate in &candidates_at(asked, byte)? {
        list.push(candidate_value(alloc, candidate)?)?;
    }
    let items = Value::Array(list);
    let value = json!(in alloc; {"isIncomplete": false, "items": items})?;
    Ok(Answer::Done(value))
}
