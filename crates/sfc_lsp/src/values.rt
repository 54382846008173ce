//! Values of messages that several answers have.

use crate::documents::Document;
use crate::positions::position_of;
use serde_json::{Value, json};
use sfc_names::sfc_places::span::Span;
use sfc_responses::position::{Position, Range};
use std::alloc::{AllocError, Global};

/// Bytes as a text; those that are no characters become others. The one error is that memory was refused.
pub fn text_value(alloc: Global, bytes: &[u8]) -> Result<Value, AllocError> {
    Ok(Value::String(String::from_utf8_lossy(alloc, bytes)?))
}

// A place.
fn position_value(alloc: Global, position: Position) -> Result<Value, AllocError> {
    json!(in alloc; {"character": (position.character), "line": (position.line)})
}

// Where a byte stands, or where the next one does that has a place.
fn place_of(document: &Document, byte: usize) -> Position {
    for place in byte..byte.saturating_add(4) {
        if let Some(position) = position_of(&document.text, &document.starts, place) {
            return position;
        }
    }
    Position {
        line: document.starts.len(),
        character: 0,
    }
}

/// What stands between two bytes of a document.
pub fn range_of(document: &Document, span: Span) -> Range {
    Range {
        from: place_of(document, span.from),
        to: place_of(document, span.to),
    }
}

/// A range, by its bytes. The one error is that memory was refused.
pub fn range_value(alloc: Global, document: &Document, span: Span) -> Result<Value, AllocError> {
    let range = range_of(document, span);
    let from = position_value(alloc, range.from)?;
    let to = position_value(alloc, range.to)?;
    json!(in alloc; {"end": to, "start": from})
}

/// A range of a document. The one error is that memory was refused.
pub fn location_value(
    alloc: Global,
    uri: &str,
    document: &Document,
    span: Span,
) -> Result<Value, AllocError> {
    let range = range_value(alloc, document, span)?;
    json!(in alloc; {"range": range, "uri": uri})
}

/// A change of a document: other text in place of a range. The one error is that memory was refused.
pub fn edit_value(
    alloc: Global,
    document: &Document,
    span: Span,
    text: &[u8],
) -> Result<Value, AllocError> {
    let text = text_value(alloc, text)?;
    let range = range_value(alloc, document, span)?;
    json!(in alloc; {"newText": text, "range": range})
}

/// Changes of one document. The one error is that memory was refused.
pub fn changes_value(alloc: Global, uri: &str, edits: Vec<Value>) -> Result<Value, AllocError> {
    let mut changes = json!(in alloc; {})?;
    if let Some(map) = changes.as_object_mut() {
        map.insert(String::from_str(alloc, uri)?, Value::Array(edits))?;
    }
    json!(in alloc; {"changes": changes})
}

/// A text that may be markdown, and what it is. The one error is that memory was refused.
pub fn markup_value(alloc: Global, text: &[u8], is_markdown: bool) -> Result<Value, AllocError> {
    let kind = if is_markdown { "markdown" } else { "plaintext" };
    let text = text_value(alloc, text)?;
    json!(in alloc; {"kind": kind, "value": text})
}
