//! What a message of JSON-RPC is.

ghost use Rattle.std.specs.Prelude.{◌≡◌, option_map};
ghost use Rattle.serde_json.specs.View.{view};
ghost use Rattle.sfc_wire.specs.Rpc as rpc;
ghost use Rattle.sfc_wire.specs.Views.{as_message};

use serde_json::Value;

/// What is asked for or told: a method, and its parameters, if there are any.
#[derive(Clone, Copy)]
pub struct Call<'a> {
    pub method: &'a str,
    pub params: Option<&'a Value>,
}

/// A message. Members of other names are passed over, and they may be in any order.
#[derive(Clone, Copy)]
pub enum Message<'a> {
    /// What is asked for under this id, a number or a text. It has to be answered by one response with that id.
    Request(&'a Value, Call<'a>),
    /// What is told. It is never answered.
    Notification(Call<'a>),
    /// The result of the request with this id that was sent to the client.
    Success(&'a Value, &'a Value),
    /// The error of the request with this id that was sent to the client.
    Failure(&'a Value, &'a Value),
    /// None of these; the id, where it has one.
    Invalid(Option<&'a Value>),
}

// Whether a value can be an id: a number or a text.
fn is_id(value: &Value) -> bool
    ensures { result ≡ rpc.is_id (view value.now) }
{
    value.is_number() || value.is_string()
}

// The id, where a message has one.
fn id_of(message: &Value) -> Option<&Value>
    ensures value { option_map (λ id. view id.now) result ≡ rpc.id_of (view message.now) }
    ensures id { rpc.MayBeId (option_map (λ id. view id.now) result) }
{
    let id = message.get("id")?;
    if is_id(id) { Some(id) } else { None }
}

// A message with a method.
fn calling<'a>(message: &'a Value, method: &'a str) -> Message<'a>
    ensures value { as_message result ≡ rpc.calling (view message.entry.now) method.entry.now }
    ensures id { rpc.HasId (as_message result) }
{
    let call = Call {
        method,
        params: message.get("params"),
    };
    match message.get("id") {
        None => Message::Notification(call),
        Some(id) if is_id(id) => Message::Request(id, call),
        Some(_) => Message::Invalid(None),
    }
}

// A message without a method that has an id.
fn answering<'a>(message: &'a Value, id: &'a Value) -> Message<'a>
    requires { rpc.IsId (view id.now) }
    ensures value { as_message result ≡ rpc.answering (view message.entry.now) (view id.entry.now) }
    ensures id { rpc.HasId (as_message result) }
{
    if let Some(error) = message.get("error") {
        return Message::Failure(id, error);
    }
    match message.get("result") {
        Some(value) => Message::Success(id, value),
        None => Message::Invalid(Some(id)),
    }
}

// A message without a method.
fn answering_any(message: &Value) -> Message<'_>
    ensures value { as_message result ≡ rpc.answering_any (view message.now) }
    ensures id { rpc.HasId (as_message result) }
{
    match id_of(message) {
        Some(id) => answering(message, id),
        None => Message::Invalid(None),
    }
}

// Whether it says the version of the protocol.
fn has_version(message: &Value) -> bool
    ensures { result ≡ rpc.has_version (view message.now) }
{
    match message.get("jsonrpc").and_then(Value::as_str) {
        Some(version) => version == "2.0",
        None => false,
    }
}

/// What a message is. It is a request or a notification where it has a method, and a response where it has none. A message that
/// does not say the version of the protocol, as its member `jsonrpc`, is invalid.
#[tactic(auto, unfolding(crate::specs::Rpc::message_of))]
pub fn message_of(message: &Value) -> Message<'_>
    ensures value { as_message result ≡ rpc.message_of (view message.now) }
    ensures id { rpc.HasId (as_message result) }
{
    if !has_version(message) {
        return Message::Invalid(id_of(message));
    }
    let Some(method) = message.get("method") else {
        return answering_any(message);
    };
    match method.as_str() {
        Some(method) => calling(message, method),
        None => Message::Invalid(id_of(message)),
    }
}
