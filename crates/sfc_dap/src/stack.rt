//! Threads, which are program instances, and their frames.

use crate::debuggee::{Debuggee, FramePlace};
use crate::form::Form;
use crate::launch::base_name;
use sfc_base::ids::ProgId;
use sfc_page::append::{append, append_number};
use sfc_replies::arguments::number_argument;
use sfc_replies::body::Body;
use sfc_replies::reply::Reply;
use sfc_replies::row::Row;
use sfc_replies::rows::Rows;
use sfc_showing::frames::{Frame, Stand, frames};
use sfc_wire::dap_request::Request;
use std::alloc::{AllocError, Global};

/// The number of the thread that a program instance is.
pub fn thread_number(program: ProgId) -> u64 {
    u64::from(program.0).saturating_add(1)
}

/// The program instance that a thread is, by the number that a request names; the first one where it names none.
pub fn thread_of(request: Request<'_>) -> ProgId {
    let number = number_argument(request, "threadId").unwrap_or(1);
    ProgId(u8::try_from(number.saturating_sub(1)).unwrap_or(u8::MAX))
}

// The name of a thread: the program instance, and its task.
fn thread_name(alloc: Global, debuggee: &Debuggee, program: ProgId) -> Result<Vec<u8>, AllocError> {
    let plant = debuggee.prompt.session().plant();
    let mut name = Vec::from_slice(alloc, plant.instance_name(program))?;
    if let Some(instance) = plant.instances().get(usize::from(program.0)) {
        append(&mut name, b" (")?;
        append(&mut name, plant.task_name(instance.task))?;
        append(&mut name, b")")?;
    }
    Ok(name)
}

/// The threads. The one error is that memory was refused; so it is of each call below.
pub fn threads(alloc: Global, debuggee: &Debuggee) -> Result<Reply, AllocError> {
    let mut rows = Rows::new(alloc);
    for number in 0..debuggee.prompt.session().plant().instances().len() {
        let program = ProgId(u8::try_from(number).unwrap_or(u8::MAX));
        let row = Row::new(alloc)
            .number("id", thread_number(program))?
            .bytes("name", &thread_name(alloc, debuggee, program)?)?;
        rows = rows.row(row)?;
    }
    let body = Body::new(alloc).rows("threads", rows)?;
    Ok(Reply::done(alloc, body))
}

// A frame in the chart.
fn frame_row(
    alloc: Global,
    debuggee: &mut Debuggee,
    form: Form,
    program: ProgId,
    frame: &Frame,
) -> Result<Row, AllocError> {
    let number = debuggee.frame_number(FramePlace {
        program,
        stand: Some(frame.stand),
    })?;
    let path = debuggee.launch.program.as_str();
    let row = Row::new(alloc)
        .number("id", number)?
        .bytes("name", &frame.name)?
        .number("line", form.told(debuggee.chart.line_of(frame.item)))?
        .number("column", form.first_column)?
        .source(base_name(path), path)?;
    match frame.stand {
        Stand::Step(_) => Ok(row),
        Stand::Initial(_) => row.text("presentationHint", "normal"),
        Stand::Cleared(_) => row.text("presentationHint", "label"),
    }
}

// The frame of the line of the script that is played next, where there is one.
fn script_row(
    alloc: Global,
    debuggee: &mut Debuggee,
    form: Form,
    program: ProgId,
) -> Result<Option<Row>, AllocError> {
    let Some(line) = debuggee.upcoming() else {
        return Ok(None);
    };
    let number = debuggee.frame_number(FramePlace {
        program,
        stand: None,
    })?;
    let mut name = Vec::from_slice(alloc, b"script line ")?;
    append_number(&mut name, u64::from(line))?;
    let Some(path) = &debuggee.launch.script else {
        return Ok(None);
    };
    let row = Row::new(alloc)
        .number("id", number)?
        .bytes("name", &name)?
        .number("line", form.told(line))?
        .number("column", form.first_column)?
        .source(base_name(path.as_str()), path.as_str())?;
    Ok(Some(row))
}

// All frames of a thread.
fn all_rows(
    alloc: Global,
    debuggee: &mut Debuggee,
    form: Form,
    program: ProgId,
) -> Result<Vec<Row>, AllocError> {
    let mut rows = Vec::new(alloc);
    for frame in &frames(alloc, debuggee.prompt.session(), program)? {
        rows.push(frame_row(alloc, debuggee, form, program, frame)?)?;
    }
    if let Some(row) = script_row(alloc, debuggee, form, program)? {
        rows.push(row)?;
    }
    Ok(rows)
}

/// The frames of a thread: its active steps in text order, and then the transitions that the latest scan cleared; before the first scan its
/// initial step; and the line of the script that is played next.
pub fn stack_trace(
    alloc: Global,
    debuggee: &mut Debuggee,
    form: Form,
    request: Request<'_>,
) -> Result<Reply, AllocError> {
    let all = all_rows(alloc, debuggee, form, thread_of(request))?;
    let total = all.len() as u64;
    let first = number_argument(request, "startFrame").unwrap_or(0);
    let levels = match number_argument(request, "levels") {
        None | Some(0) => u64::MAX,
        Some(levels) => levels,
    };
    let mut rows = Rows::new(alloc);
    let mut number: u64 = 0;
    for row in all {
        if number >= first && number.saturating_sub(first) < levels {
            rows = rows.row(row)?;
        }
        number = number.saturating_add(1);
    }
    let body = Body::new(alloc)
        .rows("stackFrames", rows)?
        .number("totalFrames", total)?;
    Ok(Reply::done(alloc, body))
}
