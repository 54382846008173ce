//! Requests of the Debug Adapter Protocol.

ghost use Rattle.std.specs.Prelude.{◌≡◌, codes, option_map};
ghost use Rattle.serde_json.specs.View.{view};
ghost use Rattle.sfc_wire.specs.Dap as dap;
ghost use Rattle.sfc_wire.specs.DapViews.{as_request};

use serde_json::Value;

/// A request: its number, its command, and its arguments, if there are any.
#[derive(Clone, Copy)]
pub struct Request<'a> {
    pub seq: u64,
    pub command: &'a str,
    pub arguments: Option<&'a Value>,
}

// Whether it says that it is a request.
fn is_request(message: &Value) -> bool
    ensures { result ≡ dap.has_type (codes "request") (view message.now) }
{
    match message.get("type").and_then(Value::as_str) {
        Some(word) => word == "request",
        None => false,
    }
}

/// The request that a message is; None of a message that is none. Members of other names are passed over, and they may be in
/// any order.
#[tactic(auto, unfolding(crate::specs::Dap::request_of))]
pub fn request_of(message: &Value) -> Option<Request<'_>>
    ensures { option_map as_request result ≡ dap.request_of (view message.now) }
{
    if !is_request(message) {
        return None;
    }
    let seq = message.get("seq").and_then(Value::as_u64)?;
    let command = message.get("command").and_then(Value::as_str)?;
    Some(Request {
        seq,
        command,
        arguments: message.get("arguments"),
    })
}
