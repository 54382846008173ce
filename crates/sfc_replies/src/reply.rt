//! A response, and the events behind it.

ghost use Rattle.std.specs.Prelude.{OnOk, IfOk, ◌≡◌};
ghost use Rattle.sfc_frames.specs.Serving.{Puts};
ghost use Rattle.sfc_wire.specs.DapAnswered.{RespondsTo, TellsEvents};
ghost use Rattle.sfc_wire.specs.DapViews.{as_request};

use crate::body::Body;
use sfc_frames::outbox::Outbox;
use sfc_frames::serving::Flow;
use sfc_wire::dap_request::Request;
use sfc_wire::dap_sender::Sender;
use std::alloc::{AllocError, Global};

/// What a request is answered.
#[derive(Drop)]
pub enum Answer {
    /// It was done, with this body.
    Done(Body),
    /// It wasn't, for this reason.
    Refused(String),
}

/// An event, by its word.
#[derive(Drop)]
pub struct Event {
    pub word: &'static str,
    pub body: Body,
}

/// A response, the events behind it, and whether more requests are taken.
#[derive(Drop)]
pub struct Reply {
    pub answer: Answer,
    pub events: Vec<Event>,
    pub flow: Flow,
}

impl Reply {
    /// It was done, with this body, and there are no events.
    pub fn done(alloc: Global, body: Body) -> Reply {
        Reply {
            answer: Answer::Done(body),
            events: Vec::new(alloc),
            flow: Flow::GoesOn,
        }
    }

    /// It was done, and there is nothing to tell.
    pub fn empty(alloc: Global) -> Reply {
        Reply::done(alloc, Body::new(alloc))
    }

    /// It wasn't done, for this reason, and there are no events.
    pub fn refused(alloc: Global, reason: String) -> Reply {
        Reply {
            answer: Answer::Refused(reason),
            events: Vec::new(alloc),
            flow: Flow::GoesOn,
        }
    }

    /// The same for a reason in these words. The one error is that memory was refused.
    pub fn refuse(alloc: Global, reason: &str) -> Result<Reply, AllocError> {
        Ok(Reply::refused(alloc, String::from_str(alloc, reason)?))
    }

    /// Whether it was done.
    pub fn is_done(&self) -> bool {
        matches!(&self.answer, Answer::Done(_))
    }

    /// With the events of another reply behind its own. The one error is that memory was refused.
    pub fn follow(&mut self, other: Reply) -> Result<(), AllocError> {
        let Reply {
            answer: _,
            events,
            flow: _,
        } = other;
        for event in events {
            self.events.push(event)?;
        }
        Ok(())
    }

    /// With an event behind the others. The one error is that memory was refused.
    pub fn tell(&mut self, word: &'static str, body: Body) -> Result<(), AllocError> {
        self.events.push(Event { word, body })?;
        Ok(())
    }
}

// Puts the response.
fn put_answer(
    request: Request<'_>,
    answer: Answer,
    sender: &mut Sender,
    outbox: &mut Outbox,
) -> Result<(), AllocError>
    ensures { OnOk result (Puts outbox.old outbox.new (RespondsTo (as_request request.entry) sender.old sender.new)) }
{
    match answer {
        Answer::Done(body) => sender.respond(request, body.value(), outbox),
        Answer::Refused(reason) => sender.refuse(request, reason.as_str(), outbox),
    }
}

// Puts an event.
fn put_event(event: Event, sender: &mut Sender, outbox: &mut Outbox) -> Result<(), AllocError>
    ensures { OnOk result (Puts outbox.old outbox.new (TellsEvents sender.old sender.new)) }
{
    let Event { word, body } = event;
    sender.tell(word, body.value(), outbox)
}

// Puts events, one after the other.
fn put_events(
    events: Vec<Event>,
    sender: &mut Sender,
    outbox: &mut Outbox,
) -> Result<(), AllocError>
    ensures { OnOk result (Puts outbox.old outbox.new (TellsEvents sender.old sender.new)) }
{
    'events: for event in events {
        put_event(event, sender, outbox)?;
    }
    Ok(())
}

/// Puts a response, and the events behind it; whether more requests are taken. The one error is that memory was refused.
pub fn put_reply(
    request: Request<'_>,
    reply: Reply,
    sender: &mut Sender,
    outbox: &mut Outbox,
) -> Result<Flow, AllocError>
    ensures responds { OnOk result (Puts outbox.old outbox.new (RespondsTo (as_request request.entry) sender.old sender.new)) }
    ensures flow { IfOk result (λ flow. flow ≡ reply.flow) }
{
    let Reply {
        answer,
        events,
        flow,
    } = reply;
    put_answer(request, answer, sender, outbox)?;
    put_events(events, sender, outbox)?;
    Ok(flow)
}
