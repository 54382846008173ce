//! Responses and notifications, put behind what a client is to be told.

ghost use Rattle.std.specs.Prelude.{◌≤◌, IsTrue, OnOk};
ghost use Rattle.serde_json.specs.Data.{depth, items_depth, members_depth};
ghost use Rattle.serde_json.specs.View.{items_view, members_view, view};
ghost use Rattle.sfc_frames.specs.Serving.{Puts};
ghost use Rattle.sfc_wire.specs.Rpc.{IsId};
ghost use Rattle.sfc_wire.specs.RpcAnswered.{AreCalls, Responds};

use crate::answer::Answer;
use serde_json::{Map, Value};
use sfc_responses::body::Body;
use sfc_responses::responding::respond_body;
use sfc_wire::error_code::ErrorCode;
use sfc_wire::rpc_outbox::{refuse, respond, tell};
use sfc_wire::sfc_frames::outbox::Outbox;
use std::alloc::{AllocError, Global};

/// How deep values nest that are sent.
const DEEPEST: usize = 100;

// Whether a value nests no deeper than so.
#[cycle(shallow)]
fn is_shallow(value: &Value, most: usize) -> bool
    ensures { IsTrue result → depth (view value.now) ≤ most }
{
    match value {
        Value::Null | Value::Bool(_) | Value::Number(_) | Value::String(_) => true,
        Value::Array(items) => most > 0 && are_shallow(items, most - 1),
        Value::Object(members) => most > 0 && are_members_shallow(members, most - 1),
    }
}

// Whether values nest no deeper than so.
#[cycle(shallow)]
fn are_shallow(items: &[Value], most: usize) -> bool
    ensures { IsTrue result → items_depth (items_view items.now) ≤ most }
{
    let mut rest = items;
    'all: while let Some((first, behind)) = rest.split_first() {
        if !is_shallow(first, most) {
            return false;
        }
        rest = behind;
    }
    true
}

// Whether the members of an object nest no deeper than so.
#[cycle(shallow)]
fn are_members_shallow(members: &Map<String, Value>, most: usize) -> bool
    ensures { IsTrue result → members_depth (members_view members.now.entries) ≤ most }
{
    for (_name, member) in members.iter() {
        if !is_shallow(member, most) {
            return false;
        }
    }
    true
}

/// Puts the response to a request. The one error is that memory was refused.
pub fn put_answer(
    alloc: Global,
    id: &Value,
    answer: Answer,
    outbox: &mut Outbox,
) -> Result<(), AllocError>
    requires { IsId (view id.now) }
    ensures { OnOk result (Puts outbox.old outbox.new (Responds (view id.now))) }
{
    match answer {
        Answer::Done(value) if is_shallow(&value, DEEPEST) => respond(alloc, id, value, outbox),
        Answer::Done(_) => {
            let reason = "the response would nest too deep";
            refuse(alloc, id, ErrorCode::InternalError, reason, outbox)
        }
        Answer::Symbols(groups) => respond_body(alloc, id, Body::Symbols(&groups), outbox),
        Answer::List(symbols) => respond_body(alloc, id, Body::List(&symbols), outbox),
        Answer::Data(numbers) => respond_body(alloc, id, Body::Data(&numbers), outbox),
        Answer::Refused(code, reason) => refuse(alloc, id, code, reason, outbox),
    }
}

// Puts the faults and warnings of a document.
#[tactic(auto, using(sfc_wire::proofs::Told::puts_none))]
fn put_one(alloc: Global, value: Value, outbox: &mut Outbox) -> Result<(), AllocError>
    ensures { OnOk result (Puts outbox.old outbox.new AreCalls) }
{
    if is_shallow(&value, DEEPEST) {
        tell(alloc, "textDocument/publishDiagnostics", value, outbox)
    } else {
        Ok(())
    }
}

/// Puts the faults and warnings of documents. The one error is that memory was refused.
#[tactic(auto, using(sfc_wire::proofs::Told::puts_none))]
pub fn put_published(
    alloc: Global,
    values: Vec<Value>,
    outbox: &mut Outbox,
) -> Result<(), AllocError>
    ensures { OnOk result (Puts outbox.old outbox.new AreCalls) }
{
    let mut left = values;
    'all: while let Some(value) = left.pop() {
        put_one(alloc, value, outbox)?;
    }
    Ok(())
}
