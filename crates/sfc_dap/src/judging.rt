//! Which breakpoints of a client were hit, and what becomes of that.

use crate::debuggee::Debuggee;
use crate::mark::Mark;
use crate::messages::append_message;
use sfc_base::ids::ProgId;
use sfc_debug::breakpoint::Breakpoint;
use sfc_editing::hits::hits;
use sfc_replay::sfc_script::point::Place;
use sfc_session::session::Session;
use std::alloc::{AllocError, Global};

/// What becomes of a hit.
#[derive(Drop)]
pub struct Judgement {
    /// Whether it stops.
    pub stops: bool,
    /// Whether breakpoints were hit that aren't the client's.
    pub is_foreign: bool,
    /// The numbers of the breakpoints that stop.
    pub ids: Vec<u64>,
    /// The program instance of the first one.
    pub program: Option<ProgId>,
    /// What marks with a message tell, a line each.
    pub messages: Vec<u8>,
}

// The point at which a breakpoint stands.
fn place_of(breakpoint: &Breakpoint) -> Place {
    Place {
        program: breakpoint.program,
        point: breakpoint.point,
    }
}

// The program instance in which a mark was hit, if it was.
fn hit_in(mark: &Mark, hit: &[Breakpoint]) -> Option<ProgId> {
    for breakpoint in hit {
        if mark.is_at(place_of(breakpoint)) {
            return Some(breakpoint.program);
        }
    }
    None
}

// Counts a hit of a mark, and judges it.
fn judge_mark(
    alloc: Global,
    session: &Session,
    mark: &mut Mark,
    hit: &[Breakpoint],
    judgement: &mut Judgement,
) -> Result<(), AllocError> {
    let Some(program) = hit_in(mark, hit) else {
        return Ok(());
    };
    mark.hits.push(session.rows().len())?;
    if !mark.counting.counts(mark.hits.len() as u64) {
        return Ok(());
    }
    if let Some(message) = &mark.message {
        return append_message(
            alloc,
            session,
            program,
            message.as_str(),
            &mut judgement.messages,
        );
    }
    judgement.stops = true;
    judgement.ids.push(mark.id)?;
    if judgement.program.is_none() {
        judgement.program = Some(program);
    }
    Ok(())
}

// Counts hits of marks, and judges them.
fn judge_marks(
    alloc: Global,
    session: &Session,
    marks: &mut Vec<Mark>,
    hit: &[Breakpoint],
    judgement: &mut Judgement,
) -> Result<(), AllocError> {
    for mark in marks.iter_mut() {
        judge_mark(alloc, session, mark, hit, judgement)?;
    }
    Ok(())
}

// The first of these breakpoints that is none of the marks.
fn foreign(debuggee: &Debuggee, hit: &[Breakpoint]) -> Option<ProgId> {
    for breakpoint in hit {
        let place = place_of(breakpoint);
        let is_line = debuggee.marks.lines.iter().any(|mark| mark.is_at(place));
        if !is_line && !debuggee.marks.names.iter().any(|mark| mark.is_at(place)) {
            return Some(breakpoint.program);
        }
    }
    None
}

/// What becomes of the hit of the command that was accepted last: it stops where a breakpoint of the client was hit that counts the hit and
/// has no message, or one that isn't the client's. The one error is that memory was refused.
pub fn judge(alloc: Global, debuggee: &mut Debuggee) -> Result<Judgement, AllocError> {
    let hit = hits(alloc, debuggee.prompt.session())?;
    let foreign = foreign(debuggee, &hit);
    let mut judgement = Judgement {
        stops: foreign.is_some(),
        is_foreign: foreign.is_some(),
        ids: Vec::new(alloc),
        program: foreign,
        messages: Vec::new(alloc),
    };
    let session = debuggee.prompt.session();
    judge_marks(
        alloc,
        session,
        &mut debuggee.marks.lines,
        &hit,
        &mut judgement,
    )?;
    judge_marks(
        alloc,
        session,
        &mut debuggee.marks.names,
        &hit,
        &mut judgement,
    )?;
    Ok(judgement)
}
