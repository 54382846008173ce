//! A chart that goes on until something stops it.

use crate::debuggee::Debuggee;
use crate::judging::judge;
use sfc_base::ids::{ProgId, TaskId};
use sfc_base::references::StepId;
use sfc_base::value::Value;
use sfc_editing::burst::{Burst, End, give, scan_on};
use sfc_editing::saying::let_go;
use sfc_events::command::Command;
use sfc_page::append::{append, append_number, append_time};
use sfc_session::session::Session;
use sfc_showing::watches::{Watched, watched_value};
use std::alloc::{AllocError, Global};

/// How far a chart goes on.
#[derive(Clone, Copy, Debug, PartialEq, Eq)]
pub enum Pace {
    /// Until something stops it.
    Free,
    /// One scan of the task that goes first.
    One,
    /// One scan of the task of a program instance.
    Task(ProgId),
    /// Until a step is no longer active.
    Out(ProgId, StepId),
}

/// Why a chart stands, for a client.
#[derive(Drop)]
pub struct Stop {
    /// The reason in the protocol's words.
    pub reason: &'static str,
    /// The reason in ours.
    pub description: Vec<u8>,
    /// The program instance at which the client looks.
    pub program: ProgId,
    /// The numbers of the breakpoints that were hit.
    pub ids: Vec<u64>,
}

/// What a chart has told while it went on.
#[derive(Drop)]
pub struct Course {
    /// The lines of its commands.
    pub out: Vec<u8>,
    /// What breakpoints with a message have told.
    pub messages: Vec<u8>,
    /// How many scans, or lines of the script, were done.
    pub count: u64,
}

impl Course {
    /// One that has told nothing.
    pub fn new(alloc: Global) -> Course {
        Course {
            out: Vec::new(alloc),
            messages: Vec::new(alloc),
            count: 0,
        }
    }
}

impl Stop {
    /// For this reason, at the first program instance.
    pub fn of(alloc: Global, reason: &'static str, words: &[u8]) -> Result<Stop, AllocError> {
        Ok(Stop {
            reason,
            description: Vec::from_slice(alloc, words)?,
            program: ProgId(0),
            ids: Vec::new(alloc),
        })
    }

    /// At this program instance.
    pub fn at(self, program: ProgId) -> Stop {
        let Stop {
            reason,
            description,
            program: _,
            ids,
        } = self;
        Stop {
            reason,
            description,
            program,
            ids,
        }
    }
}

// The task that the command scanned which was accepted last.
fn scanned_task(session: &Session) -> Option<TaskId> {
    match session.rows().last()?.command {
        Command::Scan(task) | Command::Single(task, _) => Some(task),
        _ => None,
    }
}

/// The program instance at which a client looks: this one, where the task that was scanned last is its own, else the first of that task.
pub fn focus(session: &Session, wanted: ProgId) -> ProgId {
    let Some(task) = scanned_task(session) else {
        return wanted;
    };
    let instances = session.plant().instances();
    if let Some(instance) = instances.get(usize::from(wanted.0)) {
        if instance.task == task {
            return wanted;
        }
    }
    for (number, instance) in instances.iter().enumerate() {
        if instance.task == task {
            return ProgId(u8::try_from(number).unwrap_or(0));
        }
    }
    wanted
}

// Puts at the end how far the run has come.
fn append_run(out: &mut Vec<u8>, session: &Session) -> Result<(), AllocError> {
    append(out, b", ")?;
    append_time(out, session.debugger().run_instant())
}

// Why a chart stands that has gone as far as it may.
fn limit_stop(
    alloc: Global,
    debuggee: &Debuggee,
    course: &Course,
    pace: Pace,
) -> Result<Stop, AllocError> {
    let session = debuggee.prompt.session();
    match pace {
        Pace::One | Pace::Task(_) => Stop::of(alloc, "step", b""),
        Pace::Free | Pace::Out(_, _) => {
            let mut stop = Stop::of(alloc, "pause", b"")?;
            append_number(&mut stop.description, course.count)?;
            append(&mut stop.description, b" scans")?;
            append_run(&mut stop.description, session)?;
            Ok(stop)
        }
    }
}

// The last line that was told and isn't indented.
fn last_line(out: &[u8]) -> &[u8] {
    let mut last: &[u8] = b"";
    for line in out.split(|byte| *byte == b'\n') {
        if !line.is_empty() && !line.starts_with(b" ") {
            last = line;
        }
    }
    last
}

// Why a chart stands that a command has ended.
fn end_stop(
    alloc: Global,
    debuggee: &Debuggee,
    course: &Course,
    end: End,
) -> Result<Stop, AllocError> {
    match end {
        End::Fault => Stop::of(
            alloc,
            "exception",
            b"the scan of a program ended with a fault",
        ),
        End::Refused => Stop::of(alloc, "exception", last_line(&course.out)),
        End::Overrun => Stop::of(alloc, "exception", b"a task has missed a release"),
        End::Changed(place) => {
            let mut stop = Stop::of(alloc, "data breakpoint", b"a watched value has changed")?;
            if let Some(Watched::Active(program, _) | Watched::Control(program, _)) = debuggee
                .watches
                .watched(place)
            {
                stop.program = program;
            }
            Ok(stop)
        }
        End::Limit | End::Hit => Stop::of(alloc, "pause", b""),
    }
}

// Lets the chart run on, where a client's breakpoint has halted it; where no script is played, whatever has halted it.
fn release(debuggee: &mut Debuggee, course: &mut Course) -> Result<(), AllocError> {
    if debuggee.owes_go || debuggee.upcoming().is_none() {
        let_go(&mut debuggee.prompt, &mut course.out)?;
    }
    debuggee.owes_go = false;
    Ok(())
}

// What becomes of a hit: a stop, or None where the chart goes on.
fn settle_hit(
    alloc: Global,
    debuggee: &mut Debuggee,
    course: &mut Course,
) -> Result<Option<Stop>, AllocError> {
    let judgement = judge(alloc, debuggee)?;
    append(&mut course.messages, &judgement.messages)?;
    debuggee.owes_go = !judgement.is_foreign;
    if !judgement.stops {
        return Ok(None);
    }
    let mut stop = Stop::of(alloc, "breakpoint", b"")?;
    for id in &judgement.ids {
        stop.ids.push(*id)?;
    }
    stop.program = judgement.program.unwrap_or(ProgId(0));
    Ok(Some(stop))
}

// What becomes of what has ended a command: a stop, or None where the chart goes on.
fn settle(
    alloc: Global,
    debuggee: &mut Debuggee,
    course: &mut Course,
    end: End,
) -> Result<Option<Stop>, AllocError> {
    match end {
        End::Limit => Ok(None),
        End::Hit => settle_hit(alloc, debuggee, course),
        _ => Ok(Some(end_stop(alloc, debuggee, course, end)?)),
    }
}

// The words of a scan of the task of a program instance.
fn scan_words(alloc: Global, session: &Session, program: ProgId) -> Result<Vec<u8>, AllocError> {
    let mut words = Vec::from_slice(alloc, b"SCAN ")?;
    if let Some(instance) = session.plant().instances().get(usize::from(program.0)) {
        append(&mut words, session.plant().task_name(instance.task))?;
    }
    Ok(words)
}

// One line, and what ends it.
fn give_line(
    debuggee: &mut Debuggee,
    words: &[u8],
    course: &mut Course,
) -> Result<Burst, AllocError> {
    let filters = debuggee.filters;
    let end = give(
        &mut debuggee.prompt,
        words,
        filters,
        &mut debuggee.watches,
        &mut course.out,
    )?;
    Ok(Burst {
        scans: 1,
        end: end.unwrap_or(End::Limit),
    })
}

// The next line of the script.
fn play_line(
    alloc: Global,
    debuggee: &mut Debuggee,
    course: &mut Course,
) -> Result<Burst, AllocError> {
    let accepted = debuggee.accepted();
    let words = match &mut debuggee.played {
        Some(played) => {
            let words = Vec::from_slice(alloc, played.words())?;
            played.pass(accepted)?;
            words
        }
        None => Vec::new(alloc),
    };
    give_line(debuggee, &words, course)
}

// Scans, at most so many, or the next line of the script.
fn advance(
    alloc: Global,
    debuggee: &mut Debuggee,
    pace: Pace,
    most: u64,
    course: &mut Course,
) -> Result<Burst, AllocError> {
    if debuggee.upcoming().is_some() {
        return play_line(alloc, debuggee, course);
    }
    let filters = debuggee.filters;
    match pace {
        Pace::Free => scan_on(
            &mut debuggee.prompt,
            most,
            filters,
            &mut debuggee.watches,
            &mut course.out,
        ),
        Pace::Task(program) => {
            let words = scan_words(alloc, debuggee.prompt.session(), program)?;
            give_line(debuggee, &words, course)
        }
        Pace::One | Pace::Out(_, _) => give_line(debuggee, b"SCAN", course),
    }
}

// Whether it has gone as far as it is to.
fn has_arrived(debuggee: &Debuggee, pace: Pace) -> bool {
    match pace {
        Pace::Free => false,
        Pace::One | Pace::Task(_) => true,
        Pace::Out(program, step) => {
            let watched = Watched::Active(program, step);
            watched_value(debuggee.prompt.session(), watched) != Some(Value::Bool(true))
        }
    }
}

// Why it stands before the next line of the script, if it does.
fn script_stop(
    alloc: Global,
    debuggee: &mut Debuggee,
    had_script: bool,
) -> Result<Option<Stop>, AllocError> {
    match debuggee.upcoming() {
        Some(line) if debuggee.script_lines.contains(&line) => {
            Ok(Some(Stop::of(alloc, "breakpoint", b"a line of the script")?))
        }
        None if had_script => Ok(Some(Stop::of(alloc, "pause", b"the script has ended")?)),
        _ => Ok(None),
    }
}

// Goes on by one step: a stop, or None where it goes on.
fn step(
    alloc: Global,
    debuggee: &mut Debuggee,
    pace: Pace,
    most: u64,
    course: &mut Course,
) -> Result<Option<Stop>, AllocError> {
    release(debuggee, course)?;
    let had_script = debuggee.upcoming().is_some();
    let burst = advance(alloc, debuggee, pace, most, course)?;
    course.count = course.count.saturating_add(burst.scans);
    if let Some(stop) = settle(alloc, debuggee, course, burst.end)? {
        return Ok(Some(stop));
    }
    if has_arrived(debuggee, pace) {
        return Ok(Some(Stop::of(alloc, "step", b"")?));
    }
    script_stop(alloc, debuggee, had_script)
}

/// Goes on until something stops it: scans, or lines of the script where one is played. The one error is that memory was refused.
pub fn run(
    alloc: Global,
    debuggee: &mut Debuggee,
    pace: Pace,
    wanted: ProgId,
    course: &mut Course,
) -> Result<Stop, AllocError> {
    debuggee.frames.clear();
    let most = debuggee.launch.scans;
    'steps: for _ in 0..most {
        let left = most.saturating_sub(course.count);
        if left == 0 {
            break;
        }
        if let Some(stop) = step(alloc, debuggee, pace, left, course)? {
            let is_found = stop.reason == "breakpoint" || stop.reason == "data breakpoint";
            let program = if is_found { stop.program } else { wanted };
            let program = focus(debuggee.prompt.session(), program);
            return Ok(stop.at(program));
        }
    }
    let stop = limit_stop(alloc, debuggee, course, pace)?;
    Ok(stop.at(focus(debuggee.prompt.session(), wanted)))
}
