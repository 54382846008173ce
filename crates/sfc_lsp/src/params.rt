//! The parameters of messages.

use serde_json::Value;
use sfc_responses::position::{Position, Range};

/// A member of an object; None where it is no object, or hasn't it.
pub fn member<'a>(value: Option<&'a Value>, name: &str) -> Option<&'a Value> {
    match value {
        Some(value) => value.get(name),
        None => None,
    }
}

/// A text that is a member of an object.
pub fn text_in<'a>(value: Option<&'a Value>, name: &str) -> Option<&'a str> {
    match member(value, name) {
        Some(value) => value.as_str(),
        None => None,
    }
}

/// Whether a member of an object is `true`.
pub fn is_set(value: Option<&Value>, name: &str) -> bool {
    match member(value, name) {
        Some(value) => value.as_bool() == Some(true),
        None => false,
    }
}

/// The name of the document that a message is about.
pub fn uri_of(params: Option<&Value>) -> Option<&str> {
    text_in(member(params, "textDocument"), "uri")
}

/// The version of the document that a message is about, if it says one.
pub fn version_of(params: Option<&Value>) -> Option<i64> {
    match member(member(params, "textDocument"), "version") {
        Some(version) => version.as_i64(),
        None => None,
    }
}

// A number that is a member of an object.
fn number_in(value: &Value, name: &str) -> Option<usize> {
    match value.get(name) {
        Some(number) => match usize::try_from(number.as_u64()?) {
            Ok(number) => Some(number),
            Err(_) => None,
        },
        None => None,
    }
}

/// The place that a value is.
pub fn place_in(value: Option<&Value>) -> Option<Position> {
    let value = value?;
    Some(Position {
        line: number_in(value, "line")?,
        character: number_in(value, "character")?,
    })
}

/// The place that a message is about.
pub fn place_of(params: Option<&Value>) -> Option<Position> {
    place_in(member(params, "position"))
}

/// The range that a value is.
pub fn range_in(value: Option<&Value>) -> Option<Range> {
    let from = place_in(member(value, "start"))?;
    let to = place_in(member(value, "end"))?;
    Some(Range { from, to })
}
