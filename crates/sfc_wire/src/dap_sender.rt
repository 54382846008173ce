//! Responses and events of the Debug Adapter Protocol, numbered, put behind what a client is to be told. The one error of each
//! call is that memory was refused; then nothing was put, and the number is that of before.

ghost use Rattle.std.specs.Prelude.{◌≡◌, ◌≤◌, ℕ, OnErr, OnOk};
ghost use Rattle.serde_json.specs.Data.{depth};
ghost use Rattle.serde_json.specs.View.{view};
ghost use Rattle.sfc_frames.specs.Serving.{Puts};
ghost use Rattle.sfc_wire.specs.Dap as dap;
ghost use Rattle.sfc_wire.specs.DapAnswered.{RespondsTo, TellsEvents, next_number};
ghost use Rattle.sfc_wire.specs.DapViews.{as_request};
ghost use Rattle.sfc_wire.specs.Texts.{PutsMessage};

use crate::dap_answer::{event, failure, success};
use crate::dap_request::Request;
use crate::texts::put;
use serde_json::Value;
use sfc_frames::outbox::Outbox;
use std::alloc::{AllocError, Global};
use std::marker::Model;

/// What sends numbered messages. Clauses see the number of the next one.
#[derive(Drop)]
pub struct Sender {
    alloc: Global,
    next: u64,
}

impl Model for Sender {
    ghost Value = { ℕ };

    ghost view = { λ sender. sender.next };
}

impl Sender {
    /// Nothing was sent: the next message is number 1.
    pub fn new(alloc: Global) -> Sender
        ensures { result ≡ 1 }
    {
        Sender { alloc, next: 1 }
    }

    // One more was sent.
    fn count(&mut self)
        ensures { self.new ≡ next_number self.old }
    {
        self.next = self.next.saturating_add(1);
    }

    /// Puts the response to a request that was done, with its body.
    pub fn respond(
        &mut self,
        request: Request<'_>,
        value: Value,
        outbox: &mut Outbox,
    ) -> Result<(), AllocError>
        requires { depth (view value) ≤ 100 }
        ensures put { OnOk result (PutsMessage outbox.old outbox.new (dap.success_of self.old request.entry.seq request.entry.command.now (view value))) }
        ensures next { OnOk result (self.new ≡ next_number self.old) }
        ensures responds { OnOk result (Puts outbox.old outbox.new (RespondsTo (as_request request.entry) self.old self.new)) }
        ensures unchanged { OnErr result ((self.new ≡ self.old) × (outbox.new ≡ outbox.old)) }
    {
        let message = success(self.alloc, self.next, request, value)?;
        put(self.alloc, &message, outbox)?;
        self.count();
        Ok(())
    }

    /// Puts the response to a request that was not done, for a reason.
    pub fn refuse(
        &mut self,
        request: Request<'_>,
        reason: &str,
        outbox: &mut Outbox,
    ) -> Result<(), AllocError>
        ensures put { OnOk result (PutsMessage outbox.old outbox.new (dap.failure_of self.old request.entry.seq request.entry.command.now reason.now)) }
        ensures next { OnOk result (self.new ≡ next_number self.old) }
        ensures responds { OnOk result (Puts outbox.old outbox.new (RespondsTo (as_request request.entry) self.old self.new)) }
        ensures unchanged { OnErr result ((self.new ≡ self.old) × (outbox.new ≡ outbox.old)) }
    {
        let message = failure(self.alloc, self.next, request, reason)?;
        put(self.alloc, &message, outbox)?;
        self.count();
        Ok(())
    }

    /// Puts an event, with its body.
    pub fn tell(&mut self, word: &str, value: Value, outbox: &mut Outbox) -> Result<(), AllocError>
        requires { depth (view value) ≤ 100 }
        ensures put { OnOk result (PutsMessage outbox.old outbox.new (dap.event_of self.old word.now (view value))) }
        ensures next { OnOk result (self.new ≡ next_number self.old) }
        ensures tells { OnOk result (Puts outbox.old outbox.new (TellsEvents self.old self.new)) }
        ensures unchanged { OnErr result ((self.new ≡ self.old) × (outbox.new ≡ outbox.old)) }
    {
        let message = event(self.alloc, self.next, word, value)?;
        put(self.alloc, &message, outbox)?;
        self.count();
        Ok(())
    }
}
