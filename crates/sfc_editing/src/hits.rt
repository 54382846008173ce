//! Breakpoints that the latest scan hit.

use crate::points::set_by;
use crate::sfc_debug::breakpoint::Breakpoint;
use crate::sfc_debug::debugger::Debugger;
use crate::sfc_instance::program_view::ProgramView;
use sfc_base::ticks::Ticks;
use sfc_base::value::Value;
use sfc_events::command::{Answer, CondId, Point};
use sfc_events::instance_set::InstanceSet;
use sfc_expr::eval::eval;
use sfc_session::session::Session;
use sfc_showing::own::view_of;
use std::alloc::{AllocError, Global};

// Whether the latest scan activated the step, cleared the transition, or executed the action.
fn has_happened(view: &ProgramView<'_>, point: Point) -> bool {
    match point {
        Point::Step(step) => usize::from(step.0) < view.steps() && view.activated(step),
        Point::Transition(transition) => {
            usize::from(transition.0) < view.transitions() && view.cleared(transition)
        }
        Point::Action(action) => action.0 < view.actions() && view.executed(action),
    }
}

// Whether the condition is TRUE now, where there is one. A fault of it is not TRUE.
fn holds(debugger: &Debugger, view: &ProgramView<'_>, condition: Option<CondId>) -> bool {
    let Some(id) = condition else {
        return true;
    };
    let Some((_, expr)) = debugger.condition(id) else {
        return false;
    };
    let mut ticks = Ticks::new();
    matches!(eval(expr, view, &mut ticks), Ok(Value::Bool(true)))
}

// Whether a scan in which these instances ran hit a breakpoint.
fn is_hit(debugger: &Debugger, ran: InstanceSet, breakpoint: &Breakpoint) -> bool {
    let Some(view) = view_of(debugger.resource(), breakpoint.program) else {
        return false;
    };
    ran.contains(breakpoint.program)
        && has_happened(&view, breakpoint.point)
        && holds(debugger, &view, breakpoint.condition)
}

// The instances that ran in the command that was accepted last, where it is a scan that hit a breakpoint.
fn ran_last(session: &Session) -> Option<InstanceSet> {
    let row = session.rows().last()?;
    match row.answer {
        Answer::Scanned { ran, hit: true, .. } => Some(ran),
        _ => None,
    }
}

/// The breakpoints that the command hit which was accepted last; none where it is no scan, or hit none. The one error is that memory was
/// refused.
pub fn hits(alloc: Global, session: &Session) -> Result<Vec<Breakpoint>, AllocError> {
    let mut hit = Vec::new(alloc);
    let Some(ran) = ran_last(session) else {
        return Ok(hit);
    };
    let set = set_by(alloc, session.rows())?;
    for breakpoint in &set {
        if is_hit(session.debugger(), ran, breakpoint) {
            hit.push(*breakpoint)?;
        }
    }
    Ok(hit)
}
