//! Requests to a chart that was launched.

use crate::asked::Asked;
use crate::breakpoints::{locations, set_by_lines, set_by_names};
use crate::data_points::{data_info, set_data};
use crate::debuggee::Debuggee;
use crate::desk::Desk;
use crate::evaluating::{evaluate_asked, tell_out};
use crate::form::Form;
use crate::going_back::{before_last, go_back, up_to_hit};
use crate::running::{Course, Pace, Stop, run};
use crate::stack::{stack_trace, thread_of, threads};
use crate::telling::{tell_course, tell_stop};
use crate::variables::{scopes, set_variable, variables};
use serde_json::Value;
use sfc_base::ids::ProgId;
use sfc_editing::burst::Filters;
use sfc_prompt::archive::Kept;
use sfc_replies::arguments::{items_argument, text_argument};
use sfc_replies::body::Body;
use sfc_replies::reply::Reply;
use sfc_showing::frames::{Stand, frames};
use sfc_wire::dap_request::Request;
use std::alloc::{AllocError, Global};

// Goes on, and tells of it behind a reply.
fn go_on(
    alloc: Global,
    debuggee: &mut Debuggee,
    pace: Pace,
    wanted: ProgId,
    reply: &mut Reply,
) -> Result<(), AllocError> {
    let mut course = Course::new(alloc);
    let stop = run(alloc, debuggee, pace, wanted, &mut course)?;
    tell_course(alloc, reply, &course)?;
    tell_stop(alloc, reply, &stop)
}

// Goes on from the entry, or stays there.
fn begin(alloc: Global, debuggee: &mut Debuggee) -> Result<Reply, AllocError> {
    let mut reply = Reply::empty(alloc);
    if debuggee.launch.is_halted {
        let stop = Stop::of(alloc, "entry", b"before the first command")?;
        tell_stop(alloc, &mut reply, &stop)?;
    } else {
        go_on(alloc, debuggee, Pace::Free, ProgId(0), &mut reply)?;
    }
    Ok(reply)
}

// Goes on as a request says.
fn go(
    alloc: Global,
    debuggee: &mut Debuggee,
    pace: Pace,
    request: Request<'_>,
) -> Result<Reply, AllocError> {
    let body = match pace {
        Pace::Free => Body::new(alloc).flag("allThreadsContinued", true)?,
        _ => Body::new(alloc),
    };
    let mut reply = Reply::done(alloc, body);
    go_on(alloc, debuggee, pace, thread_of(request), &mut reply)?;
    Ok(reply)
}

// How far a chart goes on until the first active step of a program instance is left.
fn out_of(alloc: Global, debuggee: &Debuggee, program: ProgId) -> Result<Pace, AllocError> {
    for frame in &frames(alloc, debuggee.prompt.session(), program)? {
        if let Stand::Step(step) = frame.stand {
            return Ok(Pace::Out(program, step));
        }
    }
    Ok(Pace::One)
}

// Goes back to where so many commands were accepted.
fn back(
    alloc: Global,
    debuggee: &mut Debuggee,
    accepted: usize,
    request: Request<'_>,
) -> Result<Reply, AllocError> {
    let mut out = Vec::new(alloc);
    match go_back(alloc, debuggee, accepted, thread_of(request), &mut out)? {
        Some(stop) => {
            let mut reply = Reply::empty(alloc);
            tell_out(alloc, &mut reply, &out)?;
            tell_stop(alloc, &mut reply, &stop)?;
            Ok(reply)
        }
        None => Reply::refuse(alloc, "the commands can't be given again"),
    }
}

// Goes back by the last step.
fn step_back(
    alloc: Global,
    debuggee: &mut Debuggee,
    request: Request<'_>,
) -> Result<Reply, AllocError> {
    match before_last(debuggee.prompt.session().rows()) {
        Some(accepted) => back(alloc, debuggee, accepted, request),
        None => Reply::refuse(alloc, "nothing was done yet"),
    }
}

// Goes back to the last hit.
fn reverse(
    alloc: Global,
    debuggee: &mut Debuggee,
    request: Request<'_>,
) -> Result<Reply, AllocError> {
    let accepted = up_to_hit(debuggee.prompt.session().rows());
    back(alloc, debuggee, accepted, request)
}

// Stands where it stands.
fn pause(alloc: Global, request: Request<'_>) -> Result<Reply, AllocError> {
    let mut reply = Reply::empty(alloc);
    let stop = Stop::of(alloc, "pause", b"")?.at(thread_of(request));
    tell_stop(alloc, &mut reply, &stop)?;
    Ok(reply)
}

// Whether a filter is among those that are asked for.
fn has_filter(asked: &[Value], word: &str) -> bool {
    for filter in asked {
        if let Some(text) = filter.as_str() {
            if text == word {
                return true;
            }
        }
    }
    false
}

// Sets what stops besides breakpoints.
fn set_filters(alloc: Global, debuggee: &mut Debuggee, request: Request<'_>) -> Reply {
    let asked = items_argument(request, "filters");
    debuggee.filters = Filters {
        fault: has_filter(asked, "fault"),
        refused: has_filter(asked, "refused"),
        overrun: has_filter(asked, "overrun"),
    };
    Reply::empty(alloc)
}

// Sets breakpoints or a variable, and tells what the prompt has told.
fn set(
    alloc: Global,
    debuggee: &mut Debuggee,
    form: Form,
    asked: Asked,
    request: Request<'_>,
) -> Result<Reply, AllocError> {
    let mut out = Vec::new(alloc);
    let mut reply = match asked {
        Asked::SetBreakpoints => set_by_lines(alloc, debuggee, form, request, &mut out)?,
        Asked::SetFunctionBreakpoints => set_by_names(alloc, debuggee, form, request, &mut out)?,
        _ => set_variable(alloc, debuggee, request, &mut out)?,
    };
    tell_out(alloc, &mut reply, &out)?;
    Ok(reply)
}

// The script so far.
fn script(alloc: Global, debuggee: &Debuggee) -> Result<Reply, AllocError> {
    let script = debuggee.prompt.session().script();
    let body = Body::new(alloc).bytes("script", script)?;
    Ok(Reply::done(alloc, body))
}

/// Keeps the script so far under this name, which isn't that of the chart; whether that was possible. What an earlier session kept there is
/// replaced.
pub fn keep<D: Desk>(desk: &mut D, debuggee: &Debuggee, path: &str) -> bool {
    if path == debuggee.launch.program.as_str() {
        return false;
    }
    let script = debuggee.prompt.session().script();
    desk.keep(path, script, true) == Kept::Kept
}

// Keeps the script so far.
fn save<D: Desk>(
    alloc: Global,
    desk: &mut D,
    debuggee: &Debuggee,
    request: Request<'_>,
) -> Result<Reply, AllocError> {
    let Some(path) = text_argument(request, "path") else {
        return Reply::refuse(alloc, "the path of a file is wanted");
    };
    if keep(desk, debuggee, path) {
        Ok(Reply::empty(alloc))
    } else {
        Reply::refuse(alloc, "the script can't be saved there")
    }
}

// What shows, and changes nothing.
fn show(
    alloc: Global,
    debuggee: &mut Debuggee,
    form: Form,
    asked: Asked,
    request: Request<'_>,
) -> Result<Reply, AllocError> {
    match asked {
        Asked::Threads => threads(alloc, debuggee),
        Asked::StackTrace => stack_trace(alloc, debuggee, form, request),
        Asked::Scopes => scopes(alloc, debuggee, request),
        Asked::Variables => variables(alloc, debuggee, request),
        Asked::DataBreakpointInfo => data_info(alloc, debuggee, request),
        Asked::BreakpointLocations => locations(alloc, debuggee, form, request),
        Asked::Script => script(alloc, debuggee),
        _ => Reply::refuse(alloc, "there is no such request"),
    }
}

// What goes on or back.
fn walk(
    alloc: Global,
    debuggee: &mut Debuggee,
    asked: Asked,
    request: Request<'_>,
) -> Result<Reply, AllocError> {
    match asked {
        Asked::ConfigurationDone => begin(alloc, debuggee),
        Asked::Continue => go(alloc, debuggee, Pace::Free, request),
        Asked::Next => go(alloc, debuggee, Pace::One, request),
        Asked::StepIn => go(alloc, debuggee, Pace::Task(thread_of(request)), request),
        Asked::StepOut => {
            let pace = out_of(alloc, debuggee, thread_of(request))?;
            go(alloc, debuggee, pace, request)
        }
        Asked::StepBack => step_back(alloc, debuggee, request),
        Asked::ReverseContinue => reverse(alloc, debuggee, request),
        Asked::Pause => pause(alloc, request),
        _ => Reply::refuse(alloc, "a token can't be put"),
    }
}

/// Does what is asked of a chart that was launched. The one error is that memory was refused; then it is of no more use.
pub fn answer<D: Desk>(
    alloc: Global,
    desk: &mut D,
    debuggee: &mut Debuggee,
    form: Form,
    (asked, request): (Asked, Request<'_>),
) -> Result<Reply, AllocError> {
    match asked {
        Asked::ConfigurationDone
        | Asked::Continue
        | Asked::Next
        | Asked::StepIn
        | Asked::StepOut
        | Asked::StepBack
        | Asked::ReverseContinue
        | Asked::Pause
        | Asked::Goto => walk(alloc, debuggee, asked, request),
        Asked::SetBreakpoints | Asked::SetFunctionBreakpoints | Asked::SetVariable => {
            set(alloc, debuggee, form, asked, request)
        }
        Asked::SetDataBreakpoints => set_data(alloc, debuggee, request),
        Asked::SetExceptionBreakpoints => Ok(set_filters(alloc, debuggee, request)),
        Asked::Evaluate => evaluate_asked(alloc, desk, debuggee, form, request),
        Asked::Save => save(alloc, desk, debuggee, request),
        _ => show(alloc, debuggee, form, asked, request),
    }
}

/// Goes on from the entry as `configurationDone` does, behind a reply. The one error is that memory was refused.
pub fn begin_again(
    alloc: Global,
    debuggee: &mut Debuggee,
    reply: &mut Reply,
) -> Result<(), AllocError> {
    let begun = begin(alloc, debuggee)?;
    reply.follow(begun)
}
