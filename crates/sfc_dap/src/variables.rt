//! Variables, steps, actions and transitions by groups, and values that a client sets.

use crate::debuggee::Debuggee;
use sfc_base::ids::{ProgId, VarId};
use sfc_editing::saying::say_words;
use sfc_page::append::append;
use sfc_replies::arguments::{number_argument, text_argument};
use sfc_replies::body::Body;
use sfc_replies::reply::Reply;
use sfc_replies::row::Row;
use sfc_replies::rows::Rows;
use sfc_session::session::Session;
use sfc_showing::shown::{
    Group, Reading, append_script_name, is_forced, is_input, shown, variable_in, variable_text,
};
use sfc_wire::dap_request::Request;
use std::alloc::{AllocError, Global};

// The groups of a program instance, in the order in which they are shown.
const GROUPS: [Group; 7] = [
    Group::Inputs,
    Group::Outputs,
    Group::Globals,
    Group::Locals,
    Group::Steps,
    Group::Actions,
    Group::Transitions,
];

// The name of a group.
fn group_name(group: Group) -> &'static str {
    match group {
        Group::Inputs => "Inputs",
        Group::Outputs => "Outputs",
        Group::Globals => "Globals",
        Group::Locals => "Locals",
        Group::Steps => "Steps",
        Group::Actions => "Actions",
        Group::Transitions => "Transitions",
    }
}

// The number of a group of a program instance: its place among those of all instances, counted from 1.
fn group_number(program: ProgId, place: usize) -> u64 {
    let before = u64::from(program.0).saturating_mul(GROUPS.len() as u64);
    before.saturating_add(place as u64).saturating_add(1)
}

/// The program instance and the group that have a number.
pub fn group_of(number: u64) -> Option<(ProgId, Group)> {
    let place = number.checked_sub(1)?;
    let program = u8::try_from(place / 7).ok()?;
    let group = GROUPS.get(usize::try_from(place % 7).ok()?)?;
    Some((ProgId(program), *group))
}

/// The groups of a frame. The one error is that memory was refused; so it is of each call below.
pub fn scopes(
    alloc: Global,
    debuggee: &Debuggee,
    request: Request<'_>,
) -> Result<Reply, AllocError> {
    let number = number_argument(request, "frameId").unwrap_or(0);
    let Some(frame) = debuggee.frame(number) else {
        return Reply::refuse(alloc, "there is no such frame");
    };
    let mut rows = Rows::new(alloc);
    for (place, group) in GROUPS.iter().enumerate() {
        let row = Row::new(alloc)
            .text("name", group_name(*group))?
            .number("variablesReference", group_number(frame.program, place))?
            .flag("expensive", false)?;
        rows = rows.row(row)?;
    }
    let body = Body::new(alloc).rows("scopes", rows)?;
    Ok(Reply::done(alloc, body))
}

// What is shown of one thing.
fn reading_row(alloc: Global, reading: &Reading) -> Result<Row, AllocError> {
    let row = Row::new(alloc)
        .bytes("name", &reading.name)?
        .bytes("value", &reading.value)?
        .number("variablesReference", 0)?;
    if reading.kind.is_empty() {
        return Ok(row);
    }
    row.text("type", reading.kind)?
        .bytes("evaluateName", &reading.name)
}

/// What a group reads.
pub fn variables(
    alloc: Global,
    debuggee: &Debuggee,
    request: Request<'_>,
) -> Result<Reply, AllocError> {
    let number = number_argument(request, "variablesReference").unwrap_or(0);
    let Some((program, group)) = group_of(number) else {
        return Reply::refuse(alloc, "there are no such variables");
    };
    let mut rows = Rows::new(alloc);
    for reading in &shown(alloc, debuggee.prompt.session(), program, group)? {
        rows = rows.row(reading_row(alloc, reading)?)?;
    }
    let body = Body::new(alloc).rows("variables", rows)?;
    Ok(Reply::done(alloc, body))
}

// The value without what is shown behind a forced one.
fn bare_value(value: &str) -> &str {
    match value.strip_suffix("(forced)") {
        Some(front) => front.trim(),
        None => value.trim(),
    }
}

// The words that set a variable to a value, or release it.
fn setting_words(
    alloc: Global,
    session: &Session,
    id: VarId,
    value: &str,
) -> Result<Vec<u8>, AllocError> {
    let value = bare_value(value);
    let mut words = Vec::new(alloc);
    if value.eq_ignore_ascii_case("RELEASE") {
        append(&mut words, b"RELEASE ")?;
        append_script_name(&mut words, session, id)?;
        return Ok(words);
    }
    if is_input(session, id) && !is_forced(session, id) {
        append(&mut words, b"INPUT ")?;
    } else {
        append(&mut words, b"FORCE ")?;
    }
    append_script_name(&mut words, session, id)?;
    append(&mut words, b" ")?;
    append(&mut words, value.as_bytes())?;
    Ok(words)
}

// The variable that a request means.
fn asked_variable(debuggee: &Debuggee, request: Request<'_>) -> Option<VarId> {
    let number = number_argument(request, "variablesReference")?;
    let (program, group) = group_of(number)?;
    let name = text_argument(request, "name")?;
    variable_in(debuggee.prompt.session(), program, group, name.as_bytes())
}

/// The text without its last line end.
pub fn without_end(text: &[u8]) -> &[u8] {
    match text.strip_suffix(b"\n") {
        Some(front) => front,
        None => text,
    }
}

/// Sets a variable: by INPUT where it is located at an input and not forced, else by FORCE; the value `RELEASE` releases it. What the prompt
/// tells is put at the end of `out`.
pub fn set_variable(
    alloc: Global,
    debuggee: &mut Debuggee,
    request: Request<'_>,
    out: &mut Vec<u8>,
) -> Result<Reply, AllocError> {
    let Some(id) = asked_variable(debuggee, request) else {
        return Reply::refuse(alloc, "only variables are set");
    };
    let value = text_argument(request, "value").unwrap_or("");
    let words = setting_words(alloc, debuggee.prompt.session(), id, value)?;
    let before = debuggee.accepted();
    let begin = out.len();
    say_words(&mut debuggee.prompt, &words, out)?;
    if debuggee.accepted() == before {
        let told = without_end(out.get(begins(begin, out)..).unwrap_or(b""));
        return Ok(Reply::refused(alloc, String::from_utf8_lossy(alloc, told)?));
    }
    let _ = debuggee.watches.look(debuggee.prompt.session());
    let text = variable_text(alloc, debuggee.prompt.session(), id)?;
    let body = Body::new(alloc)
        .bytes("value", &text)?
        .number("variablesReference", 0)?;
    Ok(Reply::done(alloc, body))
}

// Where what was told last begins.
fn begins(begin: usize, out: &[u8]) -> usize {
    begin.min(out.len())
}
