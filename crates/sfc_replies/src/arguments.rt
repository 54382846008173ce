//! What a request says: its arguments by their names. One that isn't there, or is of another kind, says nothing.

use serde_json::Value;
use sfc_wire::dap_request::Request;

/// An argument.
pub fn argument<'a>(request: Request<'a>, name: &str) -> Option<&'a Value> {
    match request.arguments {
        Some(arguments) => arguments.get(name),
        None => None,
    }
}

/// The text of an argument.
pub fn text_argument<'a>(request: Request<'a>, name: &str) -> Option<&'a str> {
    match argument(request, name) {
        Some(value) => value.as_str(),
        None => None,
    }
}

/// The number of an argument.
pub fn number_argument(request: Request<'_>, name: &str) -> Option<u64> {
    match argument(request, name) {
        Some(value) => value.as_u64(),
        None => None,
    }
}

/// Whether an argument is true, or this where it isn't there.
pub fn flag_argument(request: Request<'_>, name: &str, usual: bool) -> bool {
    match argument(request, name) {
        Some(value) => value.as_bool().unwrap_or(usual),
        None => usual,
    }
}

/// The items of an argument that is a list.
pub fn items_argument<'a>(request: Request<'a>, name: &str) -> &'a [Value] {
    match argument(request, name) {
        Some(value) => items_of(value),
        None => &[],
    }
}

/// The items of a list.
pub fn items_of(value: &Value) -> &[Value] {
    match value.as_array() {
        Some(items) => items.as_slice(),
        None => &[],
    }
}

/// The text of a member.
pub fn text_member<'a>(value: &'a Value, name: &str) -> Option<&'a str> {
    match value.get(name) {
        Some(member) => member.as_str(),
        None => None,
    }
}

/// The number of a member.
pub fn number_member(value: &Value, name: &str) -> Option<u64> {
    match value.get(name) {
        Some(member) => member.as_u64(),
        None => None,
    }
}
