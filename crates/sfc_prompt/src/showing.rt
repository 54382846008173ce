//! The words that change nothing.

use crate::line::Word;
use crate::sfc_script::split::{first_word, only_word};
use crate::words::{is_empty, number};
use sfc_asking::explaining::append_explanation;
use sfc_asking::help::append_help;
use sfc_asking::image::append_image;
use sfc_asking::listing::append_listing;
use sfc_asking::note::append_note;
use sfc_asking::points::append_points;
use sfc_asking::release::releases;
use sfc_asking::show::append_show;
use sfc_asking::trace::append_trace;
use sfc_asking::why::append_why;
use sfc_session::session::Session;
use std::alloc::{AllocError, Global};

/// How many commands TRACE shows where no number is given.
const ROWS: u64 = 10;

// How all stands.
fn show(alloc: Global, session: &Session, out: &mut Vec<u8>) -> Result<(), AllocError> {
    let releases = releases(alloc, session.debugger())?;
    append_show(out, session.debugger(), session.instant(), &releases)
}

// The newest commands.
fn trace(session: &Session, text: &[u8], out: &mut Vec<u8>) -> Result<(), AllocError> {
    let most = if is_empty(text) {
        Some(ROWS)
    } else {
        only_number(text)
    };
    match most {
        Some(most) => append_trace(out, session.debugger(), session.rows(), most as usize),
        None => append_note(out, b"TRACE, or TRACE and a number from 1"),
    }
}

// The number that the text is, from 1; None where it is none.
fn only_number(text: &[u8]) -> Option<u64> {
    number(only_word(text)?, u64::MAX)
}

// What a refusal or a fault means.
fn explain(text: &[u8], out: &mut Vec<u8>) -> Result<(), AllocError> {
    if is_empty(text) {
        return append_note(
            out,
            b"EXPLAIN and the number or the name of a refusal or a fault",
        );
    }
    let wanted = match number(text, 255) {
        Some(wanted) => u8::try_from(wanted).ok(),
        None => None,
    };
    append_explanation(out, wanted, text)
}

// Why transitions aren't cleared.
fn why(alloc: Global, session: &Session, text: &[u8], out: &mut Vec<u8>) -> Result<(), AllocError> {
    let resource = session.debugger().resource();
    let Some((program, behind)) = first_word(text) else {
        return append_why(alloc, out, resource, b"", b"");
    };
    match first_word(behind) {
        None => append_why(alloc, out, resource, program, b""),
        Some((transition, rest)) if is_empty(rest) => {
            append_why(alloc, out, resource, program, transition)
        }
        Some(_) => append_note(out, b"WHY, WHY program, or WHY program transition"),
    }
}

/// What a word tells that shows how all stands, with this text behind it, which has no blank at its end; nothing for any other word.
/// The one error is that memory was refused.
pub fn shown(
    alloc: Global,
    session: &Session,
    word: Word,
    text: &[u8],
) -> Result<Vec<u8>, AllocError> {
    let mut out = Vec::new(alloc);
    append_shown(alloc, session, word, text, &mut out)?;
    Ok(out)
}

// Puts what the word tells at the end.
fn append_shown(
    alloc: Global,
    session: &Session,
    word: Word,
    text: &[u8],
    out: &mut Vec<u8>,
) -> Result<(), AllocError> {
    match word {
        Word::Show if !is_empty(text) => append_note(out, b"SHOW, and nothing behind it"),
        Word::Points if !is_empty(text) => append_note(out, b"POINTS, and nothing behind it"),
        Word::Show => show(alloc, session, out),
        Word::Image => append_image(out, session.debugger().resource(), text),
        Word::Points => append_points(alloc, out, session.debugger(), session.rows()),
        Word::Trace => trace(session, text, out),
        Word::List => { append_listing(alloc, out, session.debugger().resource().plant(), text) }
        Word::Why => why(alloc, session, text, out),
        Word::Explain => explain(text, out),
        Word::Help => append_help(out, text),
        Word::Until | Word::AllUntil | Word::Again | Word::AllAgain | Word::Save | Word::Quit => Ok(
            (),
        ),
    }
}
