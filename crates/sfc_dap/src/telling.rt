//! Events: what was put out, and why a chart stands.

use crate::running::{Course, Stop};
use crate::stack::thread_number;
use sfc_page::append::{append, append_number};
use sfc_replies::body::Body;
use sfc_replies::reply::Reply;
use sfc_replies::rows::Rows;
use std::alloc::{AllocError, Global};

/// How many lines are told of many.
const LINES: usize = 100;

/// Tells a text of this category, where there is one. The one error is that memory was refused; so it is of each call below.
pub fn tell_text(
    alloc: Global,
    reply: &mut Reply,
    category: &str,
    text: &[u8],
) -> Result<(), AllocError> {
    if text.is_empty() {
        return Ok(());
    }
    let body = Body::new(alloc)
        .text("category", category)?
        .bytes("output", text)?;
    reply.tell("output", body)
}

// The last lines of a text, so many of them, and how many lines stand before them.
fn last_lines(text: &[u8]) -> (&[u8], usize) {
    let mut left = LINES;
    let mut from = text.len();
    let mut place = text.len();
    for byte in text.iter().rev() {
        if *byte == b'\n' && place < text.len() {
            if left <= 1 {
                break;
            }
            left = left.saturating_sub(1);
        }
        place = place.saturating_sub(1);
        from = place;
    }
    let front = text.get(..from).unwrap_or(b"");
    let before = front.iter().filter(|byte| **byte == b'\n').count();
    (text.get(from..).unwrap_or(text), before)
}

/// Tells what a chart has told while it went on: of many lines the last ones, and how many stand before them.
pub fn tell_course(alloc: Global, reply: &mut Reply, course: &Course) -> Result<(), AllocError> {
    tell_text(alloc, reply, "console", &course.messages)?;
    let (last, before) = last_lines(&course.out);
    if before > 0 {
        let mut note = Vec::new(alloc);
        append(&mut note, b"; ")?;
        append_number(&mut note, before as u64)?;
        append(&mut note, b" lines before these, of ")?;
        append_number(&mut note, course.count)?;
        append(&mut note, b" scans\n")?;
        tell_text(alloc, reply, "console", &note)?;
    }
    tell_text(alloc, reply, "stdout", last)
}

/// Tells why a chart stands.
pub fn tell_stop(alloc: Global, reply: &mut Reply, stop: &Stop) -> Result<(), AllocError> {
    let mut ids = Rows::new(alloc);
    for id in &stop.ids {
        ids = ids.number(*id)?;
    }
    let mut body = Body::new(alloc)
        .text("reason", stop.reason)?
        .number("threadId", thread_number(stop.program))?
        .flag("allThreadsStopped", true)?
        .rows("hitBreakpointIds", ids)?;
    if !stop.description.is_empty() {
        body = body.bytes("description", &stop.description)?;
    }
    reply.tell("stopped", body)
}
