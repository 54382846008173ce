//! Texts as clients change them.

ghost use Rattle.std.specs.Prelude.{◌≡◌, IfOk};
ghost use Rattle.sfc_lsp.specs.Changes as changes;

use crate::params::{member, range_in, text_in};
use crate::positions::{byte_of, line_starts};
use serde_json::Value;
use sfc_responses::position::Range;
use std::alloc::{AllocError, Global};

// The bytes of a text before a byte; all of it where it has no more.
fn front_of(text: &[u8], place: usize) -> &[u8]
    ensures { result.now ≡ changes.front text.now place }
{
    if place > text.len() {
        return text;
    }
    let (front, _) = text.split_at(place);
    front
}

// The bytes of a text from a byte on; none where it has no more.
fn behind(text: &[u8], place: usize) -> &[u8]
    ensures { result.now ≡ changes.behind text.now place }
{
    if place > text.len() {
        return b"";
    }
    let (_, back) = text.split_at(place);
    back
}

/// The text with another one in place of what stands between two places. The one error is that memory was refused.
pub fn changed(alloc: Global, text: &[u8], range: Range, more: &[u8]) -> Result<Vec<u8>, AllocError>
    ensures { IfOk result (λ other. other.items ≡ changes.changed text.now range more.now) }
{
    let starts = line_starts(alloc, text)?;
    let first = byte_of(text, &starts, range.from);
    let last = byte_of(text, &starts, range.to);
    let mut other = Vec::from_slice(alloc, front_of(text, first))?;
    other.extend_from_slice(more)?;
    other.extend_from_slice(behind(text, last))?;
    Ok(other)
}

// The text behind a change that a client sends: a new one, or one with another text in a range. None where it is no change.
fn behind_change(
    alloc: Global,
    text: &[u8],
    change: &Value,
) -> Result<Option<Vec<u8>>, AllocError> {
    let change = Some(change);
    let Some(more) = text_in(change, "text") else {
        return Ok(None);
    };
    let range = member(change, "range");
    if range.is_none() {
        return Ok(Some(Vec::from_slice(alloc, more.as_bytes())?));
    }
    match range_in(range) {
        Some(range) => Ok(Some(changed(alloc, text, range, more.as_bytes())?)),
        None => Ok(None),
    }
}

/// The text behind changes that a client sends, one after the other; None where one is none. The one error is that memory was refused.
pub fn behind_changes(
    alloc: Global,
    text: &[u8],
    changes: &[Value],
) -> Result<Option<Vec<u8>>, AllocError> {
    let mut other = Vec::from_slice(alloc, text)?;
    for change in changes {
        match behind_change(alloc, &other, change)? {
            Some(next) => other = next,
            None => return Ok(None),
        }
    }
    Ok(Some(other))
}
