//! Expressions, and lines of the prompt.

use crate::debuggee::Debuggee;
use crate::desk::Desk;
use crate::form::Form;
use crate::telling::tell_text;
use crate::variables::without_end;
use sfc_base::ids::ProgId;
use sfc_editing::saying::say;
use sfc_replies::arguments::{number_argument, text_argument};
use sfc_replies::body::Body;
use sfc_replies::reply::Reply;
use sfc_replies::rows::Rows;
use sfc_showing::evaluate::{Evaluated, evaluate};
use sfc_wire::dap_request::Request;
use std::alloc::{AllocError, Global};

// The program instance of the frame that a request names; the first one where it names none.
fn program_of(debuggee: &Debuggee, request: Request<'_>) -> ProgId {
    let frame = debuggee.frame(number_argument(request, "frameId").unwrap_or(0));
    match frame {
        Some(frame) => frame.program,
        None => ProgId(0),
    }
}

// A result.
fn result_body(alloc: Global, text: &[u8], kind: &str) -> Result<Body, AllocError> {
    let body = Body::new(alloc)
        .bytes("result", text)?
        .number("variablesReference", 0)?;
    if kind.is_empty() {
        Ok(body)
    } else {
        body.text("type", kind)
    }
}

// What an expression is now.
fn evaluate_text(
    alloc: Global,
    debuggee: &Debuggee,
    request: Request<'_>,
    text: &str,
) -> Result<Reply, AllocError> {
    let program = program_of(debuggee, request);
    let session = debuggee.prompt.session();
    match &evaluate(alloc, session, program, text.trim().as_bytes())? {
        Evaluated::Value(value, kind) => {
            Ok(Reply::done(alloc, result_body(alloc, value, kind)?))
        }
        Evaluated::Faulty(reason) => {
            Ok(Reply::refused(alloc, String::from_utf8_lossy(alloc, reason)?))
        }
    }
}

// Tells that what a client shows is no longer so.
fn tell_invalidated(alloc: Global, reply: &mut Reply) -> Result<(), AllocError> {
    let areas = Rows::new(alloc).text("all")?;
    reply.tell("invalidated", Body::new(alloc).rows("areas", areas)?)
}

// Whether the prompt has told that a line is none of its own.
fn is_no_command(told: &[u8]) -> bool {
    told.starts_with(b"; no command")
}

// A line of the prompt, or else an expression.
fn say_line<D: Desk>(
    alloc: Global,
    desk: &mut D,
    debuggee: &mut Debuggee,
    form: Form,
    request: Request<'_>,
    line: &str,
) -> Result<Reply, AllocError> {
    let before = debuggee.accepted();
    let mut out = Vec::new(alloc);
    let _ = say(&mut debuggee.prompt, line.as_bytes(), desk, &mut out)?;
    if is_no_command(&out) {
        let reply = evaluate_text(alloc, debuggee, request, line)?;
        if reply.is_done() {
            return Ok(reply);
        }
    }
    let mut reply = Reply::done(alloc, result_body(alloc, without_end(&out), "")?);
    if debuggee.accepted() > before {
        let _ = debuggee.watches.look(debuggee.prompt.session());
        debuggee.frames.clear();
        if form.is_invalidated {
            tell_invalidated(alloc, &mut reply)?;
        }
    }
    Ok(reply)
}

/// What a text is: in the context `repl` a line of the prompt, or else an expression of any type; in any other context an expression. The one
/// error is that memory was refused.
pub fn evaluate_asked<D: Desk>(
    alloc: Global,
    desk: &mut D,
    debuggee: &mut Debuggee,
    form: Form,
    request: Request<'_>,
) -> Result<Reply, AllocError> {
    let text = text_argument(request, "expression").unwrap_or("");
    match text_argument(request, "context") {
        Some("repl") => say_line(alloc, desk, debuggee, form, request, text),
        _ => evaluate_text(alloc, debuggee, request, text),
    }
}

/// Tells a text of the prompt. The one error is that memory was refused.
pub fn tell_out(alloc: Global, reply: &mut Reply, out: &[u8]) -> Result<(), AllocError> {
    tell_text(alloc, reply, "stdout", out)
}
