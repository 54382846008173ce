//! Messages in which expressions stand in braces.

use sfc_base::ids::ProgId;
use sfc_page::append::append;
use sfc_session::session::Session;
use sfc_showing::evaluate::{Evaluated, evaluate};
use std::alloc::{AllocError, Global};

// Puts at the end what an expression is now.
fn append_value(
    alloc: Global,
    session: &Session,
    program: ProgId,
    expression: &[u8],
    out: &mut Vec<u8>,
) -> Result<(), AllocError> {
    match &evaluate(alloc, session, program, expression)? {
        Evaluated::Value(text, _) => append(out, text),
        Evaluated::Faulty(reason) => append(out, reason),
    }
}

// Puts at the end a part of a message that begins behind a brace.
fn append_braced(
    alloc: Global,
    session: &Session,
    program: ProgId,
    part: &str,
    out: &mut Vec<u8>,
) -> Result<(), AllocError> {
    match part.split_once('}') {
        Some((expression, rest)) => {
            append_value(alloc, session, program, expression.trim().as_bytes(), out)?;
            append(out, rest.as_bytes())
        }
        None => {
            append(out, b"{")?;
            append(out, part.as_bytes())
        }
    }
}

/// Puts at the end a message as a line, with the values of the expressions that stand in braces, over a program instance. The one error is
/// that memory was refused.
pub fn append_message(
    alloc: Global,
    session: &Session,
    program: ProgId,
    message: &str,
    out: &mut Vec<u8>,
) -> Result<(), AllocError> {
    let mut is_first = true;
    for part in message.split('{') {
        if is_first {
            append(out, part.as_bytes())?;
        } else {
            append_braced(alloc, session, program, part, out)?;
        }
        is_first = false;
    }
    append(out, b"\n")
}
