//! A client of the Debug Adapter Protocol, whose messages are answered one by one.

ghost use Rattle.std.specs.Prelude.{◌≡◌, ℕ, IfOk, OnOk};
ghost use Rattle.serde_json.specs.Errors.{IsMemory};
ghost use Rattle.serde_json.specs.View.{view};
ghost use Rattle.sfc_frames.specs.Serving.{Puts};
ghost use Rattle.sfc_wire.specs.Dap.{request_of as request_kind};
ghost use Rattle.sfc_wire.specs.DapAnswered.{Answers, AnswersMessage, RespondsTo, TellsEvents};
ghost use Rattle.sfc_wire.specs.DapViews.{as_request};

use crate::dap_request::{Request, request_of};
use crate::dap_sender::Sender;
use serde_json::{Error, Value, json};
use sfc_frames::outbox::Outbox;
use sfc_frames::serving::{Answering, Flow};
use std::alloc::{AllocError, Global};
use std::marker::Model;

/// What does what clients ask for. The one error is that memory was refused.
pub trait DapServer {
    /// Does what is asked for: puts its one response, and behind it the events that there are to tell; whether more messages are
    /// taken.
    fn request(
        &mut self,
        request: Request<'_>,
        sender: &mut Sender,
        outbox: &mut Outbox,
    ) -> Result<Flow, AllocError>
        ensures { OnOk result (Puts outbox.old outbox.new (RespondsTo (as_request request.entry) sender.old sender.new)) };
}

// Tells a client that a message is no request.
fn complain(
    alloc: Global,
    sender: &mut Sender,
    reason: &str,
    outbox: &mut Outbox,
) -> Result<(), AllocError>
    ensures { OnOk result (Puts outbox.old outbox.new (TellsEvents sender.old sender.new)) }
{
    let value = json!(in alloc; {"category": "important", "output": reason})?;
    sender.tell("output", value, outbox)
}

// Answers what was read.
fn answer_read<S: DapServer>(
    alloc: Global,
    server: &mut S,
    sender: &mut Sender,
    message: &Value,
    outbox: &mut Outbox,
) -> Result<Flow, AllocError>
    ensures { IfOk result (λ flow. Puts outbox.old outbox.new (λ told. AnswersMessage (request_kind (view message.now)) sender.old sender.new told flow)) }
{
    match request_of(message) {
        Some(request) => server.request(request, sender, outbox),
        None => {
            complain(alloc, sender, "this is no request\n", outbox)?;
            Ok(Flow::GoesOn)
        }
    }
}

// Tells a client that a text is no JSON.
fn unread(
    alloc: Global,
    error: Error,
    sender: &mut Sender,
    outbox: &mut Outbox,
) -> Result<(), AllocError>
    ensures memory { OnOk result (¬ IsMemory error) }
    ensures told { OnOk result (Puts outbox.old outbox.new (TellsEvents sender.old sender.new)) }
{
    if error.is_memory() {
        return Err(AllocError);
    }
    complain(alloc, sender, "this is no JSON\n", outbox)
}

// Answers a text.
fn answer_text<S: DapServer>(
    alloc: Global,
    server: &mut S,
    sender: &mut Sender,
    text: &[u8],
    outbox: &mut Outbox,
) -> Result<Flow, AllocError>
    ensures { IfOk result (λ flow. Puts outbox.old outbox.new (λ told. Answers sender.old sender.new text.now told flow)) }
{
    match Value::from_slice(alloc, text) {
        Ok(message) => answer_read(alloc, server, sender, &message, outbox),
        Err(error) => {
            unread(alloc, error, sender, outbox)?;
            Ok(Flow::GoesOn)
        }
    }
}

/// A client of the Debug Adapter Protocol, for `serve` of `sfc_frames`: what answers it reads each message, has the server do
/// it, and tells by an event `output` of what is no request. Clauses see the number of the next message to it.
#[derive(Drop)]
pub struct DapClient<S> {
    alloc: Global,
    sender: Sender,
    server: S,
}

impl<S> Model for DapClient<S> {
    ghost Value = { ℕ };

    ghost view = { λ client. client.sender };
}

impl<S: DapServer> DapClient<S> {
    /// A client of this server, to which nothing was sent: the next message is number 1.
    pub fn new(alloc: Global, server: S) -> DapClient<S>
        ensures { result ≡ 1 }
    {
        DapClient {
            alloc,
            sender: Sender::new(alloc),
            server,
        }
    }
}

impl<S: DapServer> Answering for DapClient<S> {
    ghost tells = { λ old text told flow new. Answers old new text told flow };

    fn answer(&mut self, message: &[u8], outbox: &mut Outbox) -> Result<Flow, AllocError> {
        answer_text(
            self.alloc,
            &mut self.server,
            &mut self.sender,
            message,
            outbox,
        )
    }
}
