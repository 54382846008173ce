//! Blocks that an editor folds, and the kinds of words.

use crate::answer::Answer;
use crate::asked::Asked;
use crate::documents::Document;
use crate::language::Language;
use crate::positions::{columns, position_of};
use serde_json::{Value, json};
use sfc_names::chart::tokens_of;
use sfc_names::folds::blocks_of;
use sfc_names::paints::{Paint, Painted, painted_words};
use sfc_names::sfc_tokens::span::Span;
use sfc_responses::position::Position;
use std::alloc::{AllocError, Global};

// Where a byte of a document stands.
fn position_at(document: &Document, byte: u32) -> Option<Position> {
    position_of(&document.text, &document.starts, byte as usize)
}

// The lines of a block, where there are two at least.
fn lines_of(document: &Document, block: Span) -> Option<(usize, usize)> {
    let first = position_at(document, block.from)?.line;
    let last = position_at(document, block.to)?.line;
    if first < last {
        Some((first, last))
    } else {
        None
    }
}

/// The blocks of a chart, by their words. The one error is that memory was refused.
pub fn folding_ranges(asked: &Asked<'_>) -> Result<Answer, AllocError> {
    let alloc = asked.alloc;
    let mut list = Vec::new(alloc);
    if asked.document.language() != Language::Chart {
        return Ok(Answer::Done(Value::Array(list)));
    }
    let Some(tokens) = tokens_of(alloc, &asked.document.text)? else {
        return Ok(Answer::nothing());
    };
    for block in blocks_of(alloc, &tokens)? {
        if let Some((first, last)) = lines_of(asked.document, block) {
            list.push(json!(in alloc; {"endLine": last, "startLine": first})?)?;
        }
    }
    Ok(Answer::Done(Value::Array(list)))
}

// The place of a kind in the list of kinds that a client was told.
fn kind_number(paint: Paint) -> usize {
    match paint {
        Paint::Keyword => 0,
        Paint::Number => 1,
        Paint::Operator => 2,
        Paint::Comment => 3,
        Paint::Variable => 4,
        Paint::Step | Paint::Part => 5,
        Paint::Transition => 6,
        Paint::Action => 7,
        Paint::ProgramType => 8,
        Paint::Other => 9,
    }
}

/// A word that is told: where it begins, how many columns it has, and its kind.
#[derive(Clone, Copy)]
struct Told {
    at: Position,
    length: usize,
    kind: usize,
}

/// A walk over a document, from place to place.
#[derive(Clone, Copy)]
struct Walk<'a> {
    document: &'a Document,
    byte: usize,
    at: Position,
}

impl<'a> Walk<'a> {
    // It begins at the front.
    fn new(document: &'a Document) -> Walk<'a> {
        Walk {
            document,
            byte: 0,
            at: Position {
                line: 0,
                character: 0,
            },
        }
    }

    // The bytes between two places.
    fn between(&self, from: usize, to: usize) -> &'a [u8] {
        self.document.text.get(from..to).unwrap_or(b"")
    }

    // Goes on to a byte: where it stands.
    fn go_to(&mut self, byte: usize) -> Position {
        let next = self.at.line.saturating_add(1);
        let is_behind = match self.document.starts.get(next) {
            Some(start) => *start <= byte,
            None => false,
        };
        if is_behind || byte < self.byte {
            let lines = self.document.starts.partition_point(|start| *start <= byte);
            let line = lines.saturating_sub(1);
            let start = self.document.starts.get(line).copied().unwrap_or(0);
            self.at = Position {
                line,
                character: columns(self.between(start, byte)),
            };
        } else {
            let behind = columns(self.between(self.byte, byte));
            self.at.character = self.at.character.saturating_add(behind);
        }
        self.byte = byte;
        self.at
    }

    // What is told of a word; None where it isn't in one line.
    fn told_of(&mut self, painted: Painted) -> Option<Told> {
        let (from, to) = (painted.span.from as usize, painted.span.to as usize);
        let word = self.document.text.get(from..to)?;
        if word.contains(&b'\n') || word.contains(&b'\r') {
            return None;
        }
        Some(Told {
            at: self.go_to(from),
            length: columns(word),
            kind: kind_number(painted.paint),
        })
    }
}

// Puts the five numbers of a word last, behind one that begins at a place.
fn put_word(before: Position, told: Told, data: &mut Vec<usize>) -> Result<(), AllocError> {
    let lines = told.at.line.saturating_sub(before.line);
    let columns = if lines == 0 {
        told.at.character.saturating_sub(before.character)
    } else {
        told.at.character
    };
    for number in [lines, columns, told.length, told.kind, 0] {
        data.push(number)?;
    }
    Ok(())
}

/// The kinds of all words of a chart; null where it can't be read. The one error is that memory was refused.
pub fn semantic_tokens(asked: &Asked<'_>) -> Result<Answer, AllocError> {
    let alloc = asked.alloc;
    let Some(chart) = asked.chart() else {
        return Ok(Answer::nothing());
    };
    let mut data = Vec::new(alloc);
    let mut walk = Walk::new(asked.document);
    let mut before = walk.at;
    for painted in painted_words(alloc, chart)? {
        if let Some(told) = walk.told_of(painted) {
            put_word(before, told, &mut data)?;
            before = told.at;
        }
    }
    Ok(Answer::Data(data))
}
