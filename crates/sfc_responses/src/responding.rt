//! Responses, put behind what a client is to be told.

ghost use Rattle.std.specs.Prelude.{◌≡◌, IfOk, IsTrue, OnErr, OnOk};
ghost use Rattle.serde_json.specs.View.{view};
ghost use Rattle.serde_json.specs.Written.{WritesValue};
ghost use Rattle.sfc_frames.specs.Serving.{Puts};
ghost use Rattle.sfc_responses.specs.Bodies as bodies;
ghost use Rattle.sfc_responses.specs.Private.Members.{Opens};
ghost use Rattle.sfc_wire.specs.Rpc.{IsId};
ghost use Rattle.sfc_wire.specs.RpcAnswered.{Responds};
ghost use Rattle.sfc_wire.specs.RpcAnswers as answers;
ghost use Rattle.sfc_wire.specs.Texts.{PutsMessage};

use crate::body::Body;
use crate::writing::put_body;
use json::Writer;
use serde_json::Value;
use sfc_wire::rpc_outbox::respond;
use sfc_wire::sfc_frames::outbox::Outbox;
use std::alloc::{AllocError, Global};

// Writes an id that is a text or a whole number from 0 on; false of any other one, of which nothing is written.
fn put_id(out: &mut Writer, id: &Value) -> Result<bool, AllocError>
    ensures ok { IfOk result (λ is_put. IsTrue is_put → WritesValue (view id.now) out.old.tokens out.new.tokens) }
    ensures before { out.new.before ≡ out.old.before }
{
    match id {
        Value::String(text) => {
            out.string(text.as_str())?;
            Ok(true)
        }
        Value::Number(number) => match number.as_u64() {
            Some(whole) => {
                out.u64(whole)?;
                Ok(true)
            }
            None => Ok(false),
        },
        _ => Ok(false),
    }
}

// Begins the response to a request with this id, up to what it tells; false where the id is no text and no whole number from 0 on.
fn begin(out: &mut Writer, id: &Value) -> Result<bool, AllocError>
    ensures ok { IfOk result (λ is_begun. IsTrue is_begun → Opens (view id.now) out.old.tokens out.new.tokens) }
    ensures before { out.new.before ≡ out.old.before }
{
    out.begin_object()?;
    out.key("id")?;
    if !put_id(out, id)? {
        return Ok(false);
    }
    out.key("jsonrpc")?;
    out.string("2.0")?;
    out.key("result")?;
    Ok(true)
}

// What is told, as a value.
fn value_of(alloc: Global, body: Body<'_>) -> Result<Value, AllocError>
    ensures { IfOk result (λ value. view value ≡ bodies.body_of body.entry) }
{
    let mut out = Writer::new(Vec::new(alloc));
    put_body(&mut out, body)?;
    match Value::from_slice(alloc, &out.into_inner()) {
        Ok(value) => Ok(value),
        Err(_) => Err(AllocError),
    }
}

/// Puts the response to a request with this id, which tells this. The one error is that memory was refused; then nothing was put.
pub fn respond_body(
    alloc: Global,
    id: &Value,
    body: Body<'_>,
    outbox: &mut Outbox,
) -> Result<(), AllocError>
    requires { IsId (view id.now) }
    ensures put { OnOk result (PutsMessage outbox.old outbox.new (answers.success_of (view id.now) (bodies.body_of body.entry))) }
    ensures responds { OnOk result (Puts outbox.old outbox.new (Responds (view id.now))) }
    ensures unchanged { OnErr result (outbox.new ≡ outbox.old) }
{
    let mut out = Writer::new(Vec::new(alloc));
    if !begin(&mut out, id)? {
        let value = value_of(alloc, body)?;
        return respond(alloc, id, value, outbox);
    }
    put_body(&mut out, body)?;
    out.end_object()?;
    outbox.put(out.into_inner())
}
