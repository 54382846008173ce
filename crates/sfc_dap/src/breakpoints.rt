//! Breakpoints by lines and by names.

use crate::debuggee::Debuggee;
use crate::form::Form;
use crate::launch::base_name;
use crate::mark::Mark;
use crate::marks::take_all_over;
use serde_json::Value;
use sfc_editing::points::{places_named, places_of};
use sfc_replies::arguments::{
    argument, items_argument, number_argument, number_member, text_member,
};
use sfc_replies::body::Body;
use sfc_replies::reply::Reply;
use sfc_replies::row::Row;
use sfc_replies::rows::Rows;
use sfc_wire::dap_request::Request;
use std::alloc::{AllocError, Global};
use std::mem::replace;

/// Which file a client means.
#[derive(Clone, Copy, Debug, PartialEq, Eq)]
enum File {
    Chart,
    Script,
    Other,
}

// Whether two paths name one file: they are the same, or are behind their last slashes.
fn is_same_file(path: &str, other: &str) -> bool {
    path == other || base_name(path) == base_name(other)
}

// The file that a request means.
fn file_of(debuggee: &Debuggee, request: Request<'_>) -> File {
    let Some(source) = argument(request, "source") else {
        return File::Other;
    };
    let path = text_member(source, "path").unwrap_or("");
    if path == debuggee.launch.program.as_str() {
        return File::Chart;
    }
    if let Some(script) = &debuggee.launch.script {
        if is_same_file(path, script.as_str()) {
            return File::Script;
        }
    }
    if is_same_file(path, debuggee.launch.program.as_str()) {
        File::Chart
    } else {
        File::Other
    }
}

// A mark that a client asks for by a line of the chart.
fn line_mark(
    alloc: Global,
    debuggee: &mut Debuggee,
    form: Form,
    asked: &Value,
) -> Result<Mark, AllocError> {
    let mut mark = Mark::of(alloc, debuggee.marks.number(), asked)?;
    let line = form.line(number_member(asked, "line").unwrap_or(0));
    mark.line = Some(line);
    if !debuggee.launch.has_points {
        mark.refuse(b"launched without breakpoints")?;
        return Ok(mark);
    }
    let Some(element) = debuggee.chart.element_at(line) else {
        mark.refuse(b"no step, transition or action stands on this line")?;
        return Ok(mark);
    };
    mark.line = Some(element.line);
    let places = places_of(alloc, debuggee.prompt.session(), element.item)?;
    if places.is_empty() {
        mark.refuse(b"no program instance has it")?;
    }
    mark.put_at(&places)?;
    Ok(mark)
}

// A mark that a client asks for by a name.
fn name_mark(alloc: Global, debuggee: &mut Debuggee, asked: &Value) -> Result<Mark, AllocError> {
    let mut mark = Mark::of(alloc, debuggee.marks.number(), asked)?;
    if !debuggee.launch.has_points {
        mark.refuse(b"launched without breakpoints")?;
        return Ok(mark);
    }
    let name = text_member(asked, "name").unwrap_or("");
    let places = places_named(alloc, debuggee.prompt.session(), name.as_bytes())?;
    if places.is_empty() {
        mark.refuse(b"no step, action or transition has this name")?;
    }
    mark.put_at(&places)?;
    Ok(mark)
}

// What a client is told of a mark.
fn mark_row(alloc: Global, form: Form, mark: &Mark) -> Result<Row, AllocError> {
    let mut row = Row::new(alloc)
        .number("id", mark.id)?
        .flag("verified", mark.reason.is_empty())?;
    if let Some(line) = mark.line {
        row = row.number("line", form.told(line))?;
    }
    if !mark.reason.is_empty() {
        row = row.bytes("message", &mark.reason)?;
    }
    Ok(row)
}

// What a client is told of marks.
fn marks_body(alloc: Global, form: Form, marks: &[Mark]) -> Result<Body, AllocError> {
    let mut rows = Rows::new(alloc);
    for mark in marks {
        rows = rows.row(mark_row(alloc, form, mark)?)?;
    }
    Body::new(alloc).rows("breakpoints", rows)
}

// Sets the breakpoints by lines of the chart.
fn set_in_chart(
    alloc: Global,
    debuggee: &mut Debuggee,
    form: Form,
    request: Request<'_>,
    out: &mut Vec<u8>,
) -> Result<Body, AllocError> {
    let mut marks = Vec::new(alloc);
    for asked in items_argument(request, "breakpoints") {
        marks.push(line_mark(alloc, debuggee, form, asked)?)?;
    }
    take_all_over(&mut marks, &debuggee.marks.lines);
    debuggee.marks.lines = marks;
    debuggee.marks.set(alloc, &mut debuggee.prompt, out)?;
    marks_body(alloc, form, &debuggee.marks.lines)
}

// The first line from this one on of the script that says a command.
fn command_line(debuggee: &Debuggee, line: u32) -> Option<u32> {
    match &debuggee.played {
        Some(played) => played.command_line(line),
        None => None,
    }
}

// Sets the breakpoints by lines of the script.
fn set_in_script(
    alloc: Global,
    debuggee: &mut Debuggee,
    form: Form,
    request: Request<'_>,
) -> Result<Body, AllocError> {
    let mut rows = Rows::new(alloc);
    debuggee.script_lines.clear();
    for asked in items_argument(request, "breakpoints") {
        let wanted = form.line(number_member(asked, "line").unwrap_or(0));
        let found = command_line(debuggee, wanted);
        let mut row = Row::new(alloc)
            .number("id", debuggee.marks.number())?
            .flag("verified", found.is_some())?
            .number("line", form.told(found.unwrap_or(wanted)))?;
        match found {
            Some(line) => debuggee.script_lines.push(line)?,
            None => row = row.text("message", "no command stands behind this line")?,
        }
        rows = rows.row(row)?;
    }
    Body::new(alloc).rows("breakpoints", rows)
}

// That breakpoints of another file aren't set.
fn set_nowhere(alloc: Global, request: Request<'_>) -> Result<Body, AllocError> {
    let mut rows = Rows::new(alloc);
    for _ in items_argument(request, "breakpoints") {
        let row = Row::new(alloc)
            .flag("verified", false)?
            .text("message", "this file is not the chart that was launched")?;
        rows = rows.row(row)?;
    }
    Body::new(alloc).rows("breakpoints", rows)
}

/// Sets breakpoints by the lines of a file, in place of those before. What a prompt tells is put at the end of `out`. The one error is that
/// memory was refused; so it is of each call below.
pub fn set_by_lines(
    alloc: Global,
    debuggee: &mut Debuggee,
    form: Form,
    request: Request<'_>,
    out: &mut Vec<u8>,
) -> Result<Reply, AllocError> {
    let body = match file_of(debuggee, request) {
        File::Chart => set_in_chart(alloc, debuggee, form, request, out)?,
        File::Script => set_in_script(alloc, debuggee, form, request)?,
        File::Other => set_nowhere(alloc, request)?,
    };
    Ok(Reply::done(alloc, body))
}

/// Sets breakpoints by names, in place of those before.
pub fn set_by_names(
    alloc: Global,
    debuggee: &mut Debuggee,
    form: Form,
    request: Request<'_>,
    out: &mut Vec<u8>,
) -> Result<Reply, AllocError> {
    let mut marks = Vec::new(alloc);
    for asked in items_argument(request, "breakpoints") {
        marks.push(name_mark(alloc, debuggee, asked)?)?;
    }
    take_all_over(&mut marks, &debuggee.marks.names);
    debuggee.marks.names = marks;
    debuggee.marks.set(alloc, &mut debuggee.prompt, out)?;
    let body = marks_body(alloc, form, &debuggee.marks.names)?;
    Ok(Reply::done(alloc, body))
}

/// The lines at which breakpoints may stand, from one line to another one.
pub fn locations(
    alloc: Global,
    debuggee: &Debuggee,
    form: Form,
    request: Request<'_>,
) -> Result<Reply, AllocError> {
    let first = form.line(number_argument(request, "line").unwrap_or(0));
    let last = match number_argument(request, "endLine") {
        Some(line) => form.line(line),
        None => first,
    };
    let mut rows = Rows::new(alloc);
    if file_of(debuggee, request) == File::Chart {
        for line in &debuggee.chart.first_lines(alloc)? {
            if first <= *line && *line <= last {
                rows = rows.row(Row::new(alloc).number("line", form.told(*line))?)?;
            }
        }
    }
    let body = Body::new(alloc).rows("breakpoints", rows)?;
    Ok(Reply::done(alloc, body))
}

/// The breakpoints of another opening of the chart are asked for again: those by lines where their lines were, those by names at the same
/// points.
pub fn set_again(
    alloc: Global,
    debuggee: &mut Debuggee,
    mut before: Debuggee,
    out: &mut Vec<u8>,
) -> Result<(), AllocError> {
    debuggee.marks.next = before.marks.next;
    debuggee.marks.lines = replace(&mut before.marks.lines, Vec::new(alloc));
    debuggee.marks.names = replace(&mut before.marks.names, Vec::new(alloc));
    debuggee.script_lines = replace(&mut before.script_lines, Vec::new(alloc));
    debuggee.filters = before.filters;
    debuggee.marks.go_back(0);
    for mark in debuggee.marks.lines.iter_mut() {
        mark.spots.clear();
        if let Some(line) = mark.line {
            if let Some(element) = debuggee.chart.element_at(line) {
                let places = places_of(alloc, debuggee.prompt.session(), element.item)?;
                mark.put_at(&places)?;
            }
        }
    }
    debuggee.marks.set(alloc, &mut debuggee.prompt, out)
}
