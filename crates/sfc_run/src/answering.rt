//! What lines that ask how all stands are answered, by the debugger that follows a run.

use crate::alarms::Alarms;
use crate::asks::Asks;
use crate::follower::Follower;
use crate::sfc_debug::debugger::Debugger;
use crate::sfc_script::number::magnitude;
use crate::sfc_script::split::{first_word, without_cr};
use sfc_asking::explaining::append_explanation;
use sfc_asking::image::append_image;
use sfc_asking::listing::append_listing;
use sfc_asking::note::append_note;
use sfc_asking::points::append_points;
use sfc_asking::release::releases;
use sfc_asking::show::append_show;
use sfc_asking::trace::append_trace;
use sfc_asking::why::append_why;
use sfc_base::case::is_same_word;
use sfc_events::command::TraceRow;
use sfc_page::append::append;
use std::alloc::{AllocError, Global};
use std::sync::Wait;

/// How many commands TRACE shows where no number is given.
const ROWS: u64 = 10;

/// How many it shows at most: what the follower keeps.
const KEPT: u64 = 1024;

/// How many lines are answered at a time, at most.
const ROUND: usize = 64;

// What may be asked in a run.
const HELP: &[u8] = b"\
Beside commands a session may ask, and nothing changes by it:
SHOW                            the instants, the mode, when each task is scanned next, and how each program stands
IMAGE [VARIABLE]                what a variable reads, or each
WHY [PROGRAM [TRANSITION]]      why transitions aren't cleared
POINTS                          the breakpoints that are set
TRACE [N]                       the newest accepted commands
LIST [NAME]                     the chart, or a part of it
EXPLAIN NUMBER                  what a refusal or a fault means
";

// The first word of a text, and what stands behind it; nothing where there are no words.
fn parted(text: &[u8]) -> (&[u8], &[u8]) {
    first_word(text).unwrap_or((b"", b""))
}

// The newest rows that the debugger keeps, the oldest first.
fn newest(alloc: Global, debugger: &Debugger, most: u64) -> Result<Vec<TraceRow>, AllocError> {
    let mut rows = Vec::new(alloc);
    for back in (0..most as usize).rev() {
        if let Some(row) = debugger.trace(back) {
            rows.push(row)?;
        }
    }
    Ok(rows)
}

// How all stands.
fn show(alloc: Global, out: &mut Vec<u8>, follower: &Follower) -> Result<(), AllocError> {
    let releases = releases(alloc, follower.debugger())?;
    append_show(out, follower.debugger(), follower.raw(), &releases)
}

// The breakpoints that are set, where none of the commands that set and took them was lost.
fn points(alloc: Global, out: &mut Vec<u8>, alarms: &Alarms) -> Result<(), AllocError> {
    match alarms.points.rows() {
        Some(rows) => append_points(alloc, out, alarms.follower.debugger(), rows),
        None => append_note(
            out,
            b"lines of the feed were lost, so it isn't known which breakpoints are set",
        ),
    }
}

// The newest commands.
fn trace(
    alloc: Global,
    out: &mut Vec<u8>,
    debugger: &Debugger,
    text: &[u8],
) -> Result<(), AllocError> {
    let (word, _) = parted(text);
    let most = if word.is_empty() {
        Some(ROWS)
    } else {
        magnitude(word, KEPT)
    };
    match most {
        Some(most) if most > 0 => {
            let rows = newest(alloc, debugger, most)?;
            append_trace(out, debugger, &rows, most as usize)
        }
        _ => append_note(out, b"TRACE, or TRACE and a number from 1 to 1024"),
    }
}

// What a refusal or a fault means.
fn explain(out: &mut Vec<u8>, text: &[u8]) -> Result<(), AllocError> {
    let (word, _) = parted(text);
    if word.is_empty() {
        return append_note(
            out,
            b"EXPLAIN and the number or the name of a refusal or a fault",
        );
    }
    let number = magnitude(word, 255).map(|number| number as u8);
    append_explanation(out, number, word)
}

// What a word is answered, with this text behind it.
fn append_answer(
    alloc: Global,
    out: &mut Vec<u8>,
    alarms: &Alarms,
    word: &[u8],
    text: &[u8],
) -> Result<(), AllocError> {
    let debugger = alarms.follower.debugger();
    let resource = debugger.resource();
    let (first, rest) = parted(text);
    if is_same_word(word, b"SHOW") {
        return show(alloc, out, &alarms.follower);
    }
    if is_same_word(word, b"IMAGE") {
        return append_image(out, resource, first);
    }
    if is_same_word(word, b"WHY") {
        return append_why(alloc, out, resource, first, parted(rest).0);
    }
    if is_same_word(word, b"POINTS") {
        return points(alloc, out, alarms);
    }
    if is_same_word(word, b"TRACE") {
        return trace(alloc, out, debugger, text);
    }
    if is_same_word(word, b"LIST") {
        return append_listing(alloc, out, resource.plant(), first);
    }
    if is_same_word(word, b"EXPLAIN") {
        return explain(out, text);
    }
    append(out, HELP)
}

// The answer to a line.
fn append_line(
    alloc: Global,
    out: &mut Vec<u8>,
    alarms: &Alarms,
    line: &[u8],
) -> Result<(), AllocError> {
    if !alarms.follower.is_level() {
        return append_note(
            out,
            b"lines of the feed were lost, so it isn't known how all stands",
        );
    }
    let (word, text) = parted(without_cr(line));
    append_answer(alloc, out, alarms, word, text)
}

// The answers to lines that wait, 64 at most. The error is that memory was refused.
fn append_answers<R: Wait>(
    rt: &R,
    alloc: Global,
    out: &mut Vec<u8>,
    alarms: &Alarms,
    asks: &Asks,
) -> Result<(), AllocError> {
    'lines: for _ in 0..ROUND {
        let Some(line) = asks.take(rt) else {
            break;
        };
        append_line(alloc, out, alarms, &line)?;
    }
    Ok(())
}

/// The answers to lines that wait, 64 at most. Where rows of the feed were lost, that is answered; where memory is refused, what comes
/// before.
pub fn answers_to<R: Wait>(rt: &R, alloc: Global, alarms: &Alarms, asks: &Asks) -> Vec<u8> {
    let mut out = Vec::new(alloc);
    let _ = append_answers(rt, alloc, &mut out, alarms, asks);
    out
}
