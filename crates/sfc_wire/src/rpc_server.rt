//! A client of JSON-RPC, whose messages are answered one by one.

ghost use Rattle.std.specs.Prelude.{◌≡◌, None, option_map, unwrap_or, IfOk, OnOk};
ghost use Rattle.serde_json.specs.Errors.{IsMemory};
ghost use Rattle.serde_json.specs.View.{view};
ghost use Rattle.sfc_frames.specs.Serving.{Puts};
ghost use Rattle.sfc_wire.specs.Rpc.{IsId, MayBeId, message_of as message_kind};
ghost use Rattle.serde_json.specs.Data.{null};
ghost use Rattle.sfc_wire.specs.RpcAnswers.{failure_of};
ghost use Rattle.sfc_wire.specs.RpcAnswered.{AnswersMessage, Answers, AreCalls, Refuses, Responds};
ghost use Rattle.sfc_wire.specs.Views.{as_message};

use crate::error_code::ErrorCode;
use crate::rpc_answer::failure;
use crate::rpc_message::{Call, Message, message_of};
use crate::texts::put;
use serde_json::{Error, Value};
use sfc_frames::outbox::Outbox;
use sfc_frames::serving::{Answering, Flow};
use std::alloc::{AllocError, Global};

/// What does what clients ask for. The one error of each call is that memory was refused.
pub trait RpcServer {
    /// Does what is asked for under an id: puts its one response, and behind it what else there is to tell.
    fn request(&mut self, id: &Value, call: Call<'_>, outbox: &mut Outbox) -> Result<(), AllocError>
        requires { IsId (view id.now) }
        ensures { OnOk result (Puts outbox.old outbox.new (Responds (view id.now))) };

    /// Takes what it is told, and puts what there is to tell; whether more messages are taken.
    fn notification(&mut self, call: Call<'_>, outbox: &mut Outbox) -> Result<Flow, AllocError>
        ensures { OnOk result (Puts outbox.old outbox.new AreCalls) };
}

// The response to what is no message, with its id, if it has one.
fn failure_any(
    alloc: Global,
    id: Option<&Value>,
    code: ErrorCode,
    reason: &str,
) -> Result<Value, AllocError>
    ensures { IfOk result (λ message. view message ≡ failure_of (unwrap_or (option_map (λ id. view id.now) id.entry) null) code reason.now) }
{
    match id {
        Some(id) => failure(alloc, id, code, reason),
        None => failure(alloc, &Value::Null, code, reason),
    }
}

// Refuses what is no message, with its id, if it has one.
fn refuse_any(
    alloc: Global,
    id: Option<&Value>,
    code: ErrorCode,
    reason: &str,
    outbox: &mut Outbox,
) -> Result<(), AllocError>
    requires { MayBeId (option_map (λ id. view id.now) id) }
    ensures { OnOk result (Puts outbox.old outbox.new (Refuses (option_map (λ id. view id.now) id.entry) code)) }
{
    let message = failure_any(alloc, id, code, reason)?;
    put(alloc, &message, outbox)?;
    Ok(())
}

// Answers what was read.
fn answer_read<S: RpcServer>(
    alloc: Global,
    server: &mut S,
    message: &Value,
    outbox: &mut Outbox,
) -> Result<Flow, AllocError>
    ensures { IfOk result (λ flow. Puts outbox.old outbox.new (λ told. AnswersMessage (message_kind (view message.now)) told flow)) }
{
    match message_of(message) {
        Message::Request(id, call) => {
            server.request(id, call, outbox)?;
            Ok(Flow::GoesOn)
        }
        Message::Notification(call) => server.notification(call, outbox),
        Message::Success(_, _) | Message::Failure(_, _) => Ok(Flow::GoesOn),
        Message::Invalid(id) => {
            let reason = "this is no message of JSON-RPC";
            refuse_any(alloc, id, ErrorCode::InvalidRequest, reason, outbox)?;
            Ok(Flow::GoesOn)
        }
    }
}

// Refuses a text that is no JSON.
fn unread(alloc: Global, error: Error, outbox: &mut Outbox) -> Result<(), AllocError>
    ensures memory { OnOk result (¬ IsMemory error) }
    ensures refused { OnOk result (Puts outbox.old outbox.new (Refuses None ErrorCode.ParseError)) }
{
    if error.is_memory() {
        return Err(AllocError);
    }
    let reason = "this is no JSON";
    refuse_any(alloc, None, ErrorCode::ParseError, reason, outbox)
}

// Answers a text.
fn answer_text<S: RpcServer>(
    alloc: Global,
    server: &mut S,
    text: &[u8],
    outbox: &mut Outbox,
) -> Result<Flow, AllocError>
    ensures { IfOk result (λ flow. Puts outbox.old outbox.new (λ told. Answers text.now told flow)) }
{
    match Value::from_slice(alloc, text) {
        Ok(message) => answer_read(alloc, server, &message, outbox),
        Err(error) => {
            unread(alloc, error, outbox)?;
            Ok(Flow::GoesOn)
        }
    }
}

/// A client of JSON-RPC, for `serve` of `sfc_frames`: what answers it reads each message, has the server do it, and refuses
/// what is no message.
#[derive(Drop)]
pub struct RpcClient<S> {
    alloc: Global,
    server: S,
}

impl<S: RpcServer> RpcClient<S> {
    /// A client of this server.
    pub fn new(alloc: Global, server: S) -> RpcClient<S> {
        RpcClient { alloc, server }
    }
}

impl<S: RpcServer> Answering for RpcClient<S> {
    ghost tells = { λ old text told flow new. Answers text told flow };

    fn answer(&mut self, message: &[u8], outbox: &mut Outbox) -> Result<Flow, AllocError> {
        answer_text(self.alloc, &mut self.server, message, outbox)
    }
}
