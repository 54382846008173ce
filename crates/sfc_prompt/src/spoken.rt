//! Texts that should be commands of a script.

ghost use Rattle.std.specs.Prelude.{◌≡◌, List, ℕ, IfOk, OnOk, unwrap_or};
ghost use Rattle.sfc_asking.specs.sfc_debug.Histories.{CommandHistory};
ghost use Rattle.sfc_prompt.specs.Orders as orders;
ghost use Rattle.sfc_prompt.specs.Orders.{Hints, Obeys, Waits, command_order, order_by, text_order, text_step};
ghost use Rattle.sfc_session.specs.Sessions.{HasSaid, last_instant, steered_in};
ghost use Rattle.sfc_asking.specs.sfc_script.Private.Reading.{as_conditional};

use crate::expression::{Found, append_fault, read_condition};
use crate::sfc_debug::timed::Timed;
use crate::sfc_script::command::{Conditional, read_command, read_conditional};
use crate::sfc_script::line_fault::{LineFault, text_fault};
use crate::sfc_script::split::{first_word, only_word};
use crate::sfc_script::wanted::Wanted;
use crate::words::is_word;
use sfc_asking::note::append_named;
use sfc_base::case::is_same_word;
use sfc_base::ids::TaskId;
use sfc_events::command::{Answer, Command, CondId};
use sfc_events::refusal::Refusal;
use sfc_page::append::append;
use sfc_plant::plant::Plant;
use sfc_session::scanning::scan;
use sfc_session::session::Session;
use sfc_session::step::{Step, step_of, take};
use std::alloc::{AllocError, Global};

/// A text that should be a command of a script, and the instant in front of it, in microseconds, if there is one.
#[derive(Clone, Copy)]
pub struct Spoken<'a> {
    /// The instant.
    pub instant: Option<i64>,
    /// The text, without blanks around it.
    pub text: &'a [u8],
}

// The task, where the command is a scan without an instant.
fn free_scan(command: Command, instant: Option<i64>) -> Option<TaskId>
    ensures { result ≡ orders.free_scan instant command }
{
    match (instant, command) {
        (None, Command::Scan(task)) => Some(task),
        _ => None,
    }
}

// The instant that is said, or else that of the last accepted command.
fn instant_or_last(session: &Session, instant: Option<i64>) -> i64
    ensures { (h : CommandHistory) (lines : List ℕ) → HasSaid session.now h lines → result ≡ unwrap_or instant (last_instant h) }
{
    match instant {
        Some(instant) => instant,
        None => session.instant(),
    }
}

/// Puts at the end what serves, where the resource is halted and a command was refused for that. The one error is that memory was refused.
pub fn append_hint(out: &mut Vec<u8>, answer: Result<Answer, Refusal>) -> Result<(), AllocError>
    ensures { OnOk result (Hints (orders.is_stopped answer) out.old.items out.new.items) }
{
    match answer {
        Err(Refusal::Stopped) => append(
            out,
            b"; the resource is halted: GO lets it run on, and SINGLE task scans a task once\n",
        ),
        _ => Ok(()),
    }
}

// A command of a script, at its instant, or from the last accepted command on.
fn give(
    alloc: Global,
    session: &mut Session,
    command: Command,
    spoken: Spoken<'_>,
    out: &mut Vec<u8>,
) -> Result<(), AllocError>
    ensures { (h : CommandHistory) (lines : List ℕ) → HasSaid session.old h lines → OnOk result
        (Obeys session.old session.new out.old.items out.new.items h lines
        (command_order (steered_in session.old) h spoken.entry.instant spoken.entry.text.now command (orders.free_scan spoken.entry.instant command))) }
{
    match free_scan(command, spoken.instant) {
        Some(task) => {
            let answer = scan(alloc, session, task, out)?;
            append_hint(out, answer)
        }
        None => {
            let raw = instant_or_last(session, spoken.instant);
            let answer = session.command(alloc, Timed { command, raw }, spoken.text, out)?;
            append_hint(out, answer)
        }
    }
}

// A breakpoint with a condition, at its instant, or at that of the last accepted command.
fn place(
    alloc: Global,
    session: &mut Session,
    conditional: Conditional<'_>,
    spoken: Spoken<'_>,
    out: &mut Vec<u8>,
) -> Result<(), AllocError>
    ensures { (h : CommandHistory) (lines : List ℕ) → HasSaid session.old h lines → OnOk result
        (Obeys session.old session.new out.old.items out.new.items h lines
        (Waits (as_conditional conditional.entry) (unwrap_or spoken.entry.instant (last_instant h)) spoken.entry.text.now)) }
{
    let place = conditional.place;
    let raw = instant_or_last(session, spoken.instant);
    match read_condition(alloc, session.plant(), place.program, conditional.text)? {
        Found::Condition(condition) => {
            let _ = session.break_when(alloc, (place.point, raw), condition, spoken.text, out)?;
            Ok(())
        }
        Found::NoProgram => {
            let command = Command::BreakIf(place.program, place.point, CondId(0));
            let _ = session.command(alloc, Timed { command, raw }, spoken.text, out)?;
            Ok(())
        }
        Found::Faulty(fault) => append_fault(out, fault),
    }
}

// One single scan of a task, after its INTERVAL, where it has one.
fn single_of(plant: &Plant, task: TaskId) -> Option<Step>
    ensures { result ≡ orders.single_of plant.now task }
{
    match plant.tasks().get(usize::from(task.0)) {
        Some(it) if it.interval > 0 => Some(Step::Single(task, it.interval)),
        _ => None,
    }
}

// The single scan of the task that is named alone in a text, if there is one.
fn single_named(plant: &Plant, text: &[u8]) -> Option<Step>
    ensures { result ≡ orders.single_named plant.now text.now }
{
    let name = only_word(text)?;
    let task = plant.find_task(name)?;
    single_of(plant, task)
}

// The single scan that SINGLE and the name of a task say.
fn single_alone(plant: &Plant, text: &[u8]) -> Option<Step>
    ensures { result ≡ orders.single_alone plant.now text.now }
{
    let (word, rest) = first_word(text)?;
    if is_same_word(word, b"SINGLE") {
        single_named(plant, rest)
    } else {
        None
    }
}

// The step of a text that is no command: SCAN alone, or SINGLE and a task, without an instant.
fn other_step(plant: &Plant, spoken: Spoken<'_>) -> Option<Step>
    ensures { result ≡ orders.other_step plant.now spoken.entry.instant spoken.entry.text.now }
{
    if spoken.instant.is_some() {
        return None;
    }
    if is_word(spoken.text, b"SCAN") {
        return Some(Step::First);
    }
    single_alone(plant, spoken.text)
}

// The word of a text at a place, counted from 1; None where it has fewer.
fn word_at(text: &[u8], place: usize) -> Option<&[u8]> {
    let mut rest = text;
    let mut found = None;
    for _place in 0..place {
        let (word, behind) = first_word(rest)?;
        found = Some(word);
        rest = behind;
    }
    found
}

// What is wanted in a text that is no command, and the word in whose place it is.
fn slip(alloc: Global, text: &[u8]) -> Result<Vec<u8>, AllocError> {
    let mut told = Vec::new(alloc);
    match text_fault(text) {
        Some(LineFault::Word(place, wanted)) if wanted != Wanted::Command => {
            append(&mut told, b": expected ")?;
            append(&mut told, wanted.text())?;
            if let Some(word) = word_at(text, place) {
                append(&mut told, b", not ")?;
                append(&mut told, word)?;
            }
        }
        _ => append(&mut told, b"; HELP lists what may be said")?,
    }
    Ok(told)
}

// What is no command of a script, but maybe a step.
fn say_other(
    alloc: Global,
    session: &mut Session,
    spoken: Spoken<'_>,
    out: &mut Vec<u8>,
) -> Result<Option<Step>, AllocError>
    ensures step { IfOk result (λ step. step
        ≡ orders.other_step (steered_in session.old).plant spoken.entry.instant spoken.entry.text.now) }
    ensures obeys { (h : CommandHistory) (lines : List ℕ) → HasSaid session.old h lines → OnOk result
        (Obeys session.old session.new out.old.items out.new.items h lines
        (order_by (steered_in session.old) h spoken.entry.instant spoken.entry.text.now None None)) }
{
    match other_step(session.plant(), spoken) {
        Some(step) => {
            let answer = take(alloc, session, step, out)?;
            append_hint(out, answer)?;
            Ok(Some(step))
        }
        None => {
            append_named(out, b"no command", &slip(alloc, spoken.text)?)?;
            Ok(None)
        }
    }
}

/// Obeys a text that should be a command of a script: one with its instant there, one without an instant at that of the last accepted command,
/// a scan at its task's next release, or a single scan after its task's INTERVAL. What is answered is put at the end of `out`. The step that it is, if it is one. The one error is that
/// memory was refused; then the session is of no more use.
pub fn say(
    alloc: Global,
    session: &mut Session,
    spoken: Spoken<'_>,
    out: &mut Vec<u8>,
) -> Result<Option<Step>, AllocError>
    ensures step { IfOk result (λ step. step ≡ text_step (steered_in session.old).plant spoken.entry.instant spoken.entry.text.now) }
    ensures obeys { (h : CommandHistory) (lines : List ℕ) → HasSaid session.old h lines → OnOk result
        (Obeys session.old session.new out.old.items out.new.items h lines
        (text_order (steered_in session.old) h spoken.entry.instant spoken.entry.text.now)) }
{
    let resource = session.debugger().resource();
    if let Some(command) = read_command(resource, spoken.text) {
        give(alloc, session, command, spoken, out)?;
        return Ok(step_of(command));
    }
    match read_conditional(resource, spoken.text) {
        Some(conditional) => {
            place(alloc, session, conditional, spoken, out)?;
            Ok(None)
        }
        None => say_other(alloc, session, spoken, out),
    }
}
