//! A client that debugs a chart, request by request.

ghost use Rattle.std.specs.Prelude.{OnOk};
ghost use Rattle.sfc_frames.specs.Serving.{Puts};
ghost use Rattle.sfc_wire.specs.DapAnswered.{RespondsTo};
ghost use Rattle.sfc_wire.specs.DapViews.{as_request};

use crate::asked::{Asked, asked_by};
use crate::breakpoints::set_again;
use crate::capabilities::capabilities;
use crate::debuggee::Debuggee;
use crate::desk::Desk;
use crate::evaluating::tell_out;
use crate::form::Form;
use crate::launch::Launch;
use crate::launched::{answer, begin_again, keep};
use crate::opening::{Opening, open};
use crate::telling::tell_text;
use sfc_frames::outbox::Outbox;
use sfc_frames::serving::Flow;
use sfc_replies::body::Body;
use sfc_replies::reply::{Reply, put_reply};
use sfc_wire::dap_request::Request;
use sfc_wire::dap_sender::Sender;
use sfc_wire::dap_server::DapServer;
use std::alloc::{AllocError, Global};

/// A client that debugs a chart, or none yet.
#[derive(Drop)]
pub struct Adapter<D: Desk> {
    alloc: Global,
    desk: D,
    form: Form,
    debuggee: Option<Debuggee>,
}

// The first line of a report.
fn first_line(report: &[u8]) -> &[u8] {
    match report.split(|byte| *byte == b'\n').next() {
        Some(line) => line,
        None => report,
    }
}

// That a launch is refused: the first line of a report, and all of it.
fn refused(alloc: Global, report: &[u8]) -> Result<Reply, AllocError> {
    let reason = String::from_utf8_lossy(alloc, first_line(report))?;
    let mut reply = Reply::refused(alloc, reason);
    tell_text(alloc, &mut reply, "important", report)?;
    Ok(reply)
}

impl<D: Desk> Adapter<D> {
    /// One that has launched nothing.
    pub fn new(alloc: Global, desk: D) -> Adapter<D> {
        Adapter {
            alloc,
            desk,
            form: Form::usual(),
            debuggee: None,
        }
    }

    // What the client is told first.
    fn initialize(&mut self, request: Request<'_>) -> Result<Reply, AllocError> {
        self.form = Form::of(request);
        Ok(Reply::done(self.alloc, capabilities(self.alloc)?))
    }

    // Launches a chart.
    fn launch(&mut self, request: Request<'_>) -> Result<Reply, AllocError> {
        let alloc = self.alloc;
        let Some(launch) = Launch::of(alloc, request)? else {
            return Reply::refuse(alloc, "launch names no program");
        };
        match open(alloc, &mut self.desk, launch)? {
            Opening::Opened(debuggee) => {
                self.debuggee = Some(debuggee);
                let mut reply = Reply::empty(alloc);
                reply.tell("initialized", Body::new(alloc))?;
                Ok(reply)
            }
            Opening::Refused(report) => refused(alloc, &report),
        }
    }

    // Launches the chart of the file anew, with the breakpoints that are asked for.
    fn restart(&mut self) -> Result<Reply, AllocError> {
        let alloc = self.alloc;
        let Some(before) = self.debuggee.take() else {
            return Reply::refuse(alloc, "nothing was launched");
        };
        let launch = before.launch.copy(alloc)?;
        match open(alloc, &mut self.desk, launch)? {
            Opening::Opened(mut debuggee) => {
                let mut out = Vec::new(alloc);
                set_again(alloc, &mut debuggee, before, &mut out)?;
                let mut reply = Reply::empty(alloc);
                tell_out(alloc, &mut reply, &out)?;
                begin_again(alloc, &mut debuggee, &mut reply)?;
                self.debuggee = Some(debuggee);
                Ok(reply)
            }
            Opening::Refused(report) => {
                self.debuggee = Some(before);
                refused(alloc, &report)
            }
        }
    }

    // Keeps the script where the launch has named a file for it; what went wrong is told.
    fn keep_script(&mut self, reply: &mut Reply) -> Result<(), AllocError> {
        let Some(debuggee) = &self.debuggee else {
            return Ok(());
        };
        let Some(path) = &debuggee.launch.save else {
            return Ok(());
        };
        if keep(&mut self.desk, debuggee, path.as_str()) {
            return Ok(());
        }
        tell_text(
            self.alloc,
            reply,
            "important",
            b"the script can't be saved\n",
        )
    }

    // Ends what was launched.
    fn end(&mut self, is_left: bool) -> Result<Reply, AllocError> {
        let alloc = self.alloc;
        let mut reply = Reply::empty(alloc);
        self.keep_script(&mut reply)?;
        self.debuggee = None;
        if is_left {
            reply.flow = Flow::Ends;
        } else {
            reply.tell("terminated", Body::new(alloc))?;
        }
        Ok(reply)
    }

    // Does what is asked of the chart that was launched.
    fn answer_launched(&mut self, asked: Asked, request: Request<'_>) -> Result<Reply, AllocError> {
        match &mut self.debuggee {
            Some(debuggee) => answer(
                self.alloc,
                &mut self.desk,
                debuggee,
                self.form,
                (asked, request),
            ),
            None => Reply::refuse(self.alloc, "nothing was launched"),
        }
    }

    // Does what is asked for.
    fn answer(&mut self, request: Request<'_>) -> Result<Reply, AllocError> {
        match asked_by(request.command) {
            Asked::Initialize => self.initialize(request),
            Asked::Launch => self.launch(request),
            Asked::Attach => Reply::refuse(
                self.alloc,
                "a run can't be attached to: a chart is debugged in virtual time, from its launch on",
            ),
            Asked::Restart => self.restart(),
            Asked::Disconnect => self.end(true),
            Asked::Terminate => self.end(false),
            Asked::Other => Reply::refuse(self.alloc, "there is no such request"),
            asked => self.answer_launched(asked, request),
        }
    }
}

impl<D: Desk> DapServer for Adapter<D> {
    fn request(
        &mut self,
        request: Request<'_>,
        sender: &mut Sender,
        outbox: &mut Outbox,
    ) -> Result<Flow, AllocError>
        ensures { OnOk result (Puts outbox.old outbox.new (RespondsTo (as_request request.entry) sender.old sender.new)) }
    {
        let reply = self.answer(request)?;
        put_reply(request, reply, sender, outbox)
    }
}
