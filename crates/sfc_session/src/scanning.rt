//! Scans that have no instant of their own.

ghost use Rattle.std.specs.Prelude.{◌≡◌, List, ℕ, IfOk};
ghost use Rattle.sfc_output.specs.sfc_debug.Histories.{CommandHistory};
ghost use Rattle.sfc_events.specs.declared.command.Command.TheVariants.{Scan};
ghost use Rattle.sfc_output.specs.Output.{debugger_of};
ghost use Rattle.sfc_session.specs.Scanning as scanning;
ghost use Rattle.sfc_session.specs.Scanning.{first_scan_after, goes_on, scan_after};
ghost use Rattle.sfc_session.specs.Sessions.{HasSaid, IsTaken, last_instant, steered_in, words_of};
ghost use Rattle.sfc_session.specs.Trying.{IsTried, TriesAll};

use crate::session::Session;
use crate::sfc_debug::timed::Timed;
use sfc_base::ids::TaskId;
use sfc_events::command::{Answer, Command};
use sfc_events::refusal::Refusal;
use sfc_page::append::append;
use sfc_plant::names::task_name;
use std::alloc::{AllocError, Global};

// The words of a scan.
fn scan_words(alloc: Global, session: &Session, task: TaskId) -> Result<Vec<u8>, AllocError>
    ensures { IfOk result (λ words. words.items ≡ words_of (steered_in session.now) (Scan task)) }
{
    let tasks = session.plant().tasks();
    let mut words = Vec::new(alloc);
    append(&mut words, b"SCAN ")?;
    append(&mut words, task_name(tasks, usize::from(task.0)))?;
    Ok(words)
}

// A scan of a task at a raw instant.
fn scan_then(
    alloc: Global,
    session: &mut Session,
    task: TaskId,
    raw: i64,
    out: &mut Vec<u8>,
) -> Result<Result<Answer, Refusal>, AllocError>
    ensures steered { steered_in session.new ≡ steered_in session.old }
    ensures taken { (h : CommandHistory) (lines : List ℕ) → HasSaid session.old h lines → IfOk result (λ answer.
        IsTaken session.old session.new out.old.items out.new.items answer h lines (Scan task, raw)) }
{
    let words = scan_words(alloc, session, task)?;
    let timed = Timed {
        command: Command::Scan(task),
        raw,
    };
    session.command(alloc, timed, &words, out)
}

// The next release of a task whose scan was refused since it isn't due, a run instant, if there is one.
fn release_in(answer: Result<Answer, Refusal>) -> Option<i64>
    ensures { result ≡ scanning.release_in answer }
{
    match answer {
        Err(Refusal::NotDue(next)) => next,
        _ => None,
    }
}

// The raw instant of a next release, or that of the last accepted command.
fn instant_of(session: &Session, next: Option<i64>) -> i64
    ensures { (h : CommandHistory) (lines : List ℕ) → HasSaid session.now h lines → result ≡
        goes_on next (last_instant h) ((debugger_of (steered_in session.now)).state h).clock.instant }
{
    match next {
        Some(next) => session.raw_of(next),
        None => session.instant(),
    }
}

/// Scans a task: at the instant of the last accepted command, or where it isn't due then, at its next release. What it answers or is refused
/// for there is put at the end of `out` as by `Session::command`, and nothing is told of the first try. The one error is that memory was
/// refused; then the session is of no more use.
pub fn scan(
    alloc: Global,
    session: &mut Session,
    task: TaskId,
    out: &mut Vec<u8>,
) -> Result<Result<Answer, Refusal>, AllocError>
    ensures steered { steered_in session.new ≡ steered_in session.old }
    ensures taken { (h : CommandHistory) (lines : List ℕ) → HasSaid session.old h lines → IfOk result (λ answer. IsTaken session.old session.new
        out.old.items out.new.items answer h lines (scan_after (steered_in session.old) h task)) }
{
    let begin = out.len();
    let raw = session.instant();
    let answer = scan_then(alloc, session, task, raw, out)?;
    let Some(next) = release_in(answer) else {
        return Ok(answer);
    };
    out.truncate(begin);
    let later = session.raw_of(next);
    scan_then(alloc, session, task, later, out)
}

// Whether a scan was refused since it isn't the task's turn.
fn is_out_of_turn(answer: Result<Answer, Refusal>) -> bool
    ensures { result ≡ scanning.is_out_of_turn answer }
{
    match answer {
        Err(Refusal::NotDue(_)) | Err(Refusal::Yield(_)) => true,
        _ => false,
    }
}

// The earlier of two instants, if there are any.
fn earlier(first: Option<i64>, second: Option<i64>) -> Option<i64>
    ensures { result ≡ scanning.earlier first second }
{
    let Some(next) = first else {
        return second;
    };
    match second {
        Some(other) => Some(if next <= other { next } else { other }),
        None => Some(next),
    }
}

// Scans a task at a raw instant where it is its turn then; else nothing is left of it but the refusal.
fn try_scan(
    alloc: Global,
    session: &mut Session,
    task: TaskId,
    raw: i64,
    out: &mut Vec<u8>,
) -> Result<Result<Answer, Refusal>, AllocError>
    ensures steered { steered_in session.new ≡ steered_in session.old }
    ensures tried { (h : CommandHistory) (lines : List ℕ) → HasSaid session.old h lines → IfOk result (λ answer.
        IsTried session.old session.new out.old.items out.new.items answer h lines (Scan task, raw)) }
{
    let begin = out.len();
    let answer = scan_then(alloc, session, task, raw, out)?;
    if is_out_of_turn(answer) {
        out.truncate(begin);
    }
    Ok(answer)
}

/// What came of trying all tasks.
enum Tried {
    /// It is the turn of a task. Its scan was answered so, or refused for another reason.
    Answered(Result<Answer, Refusal>),
    /// It is no task's turn. This is the earliest next release, a run instant, if a task has one.
    NoTurn(Option<i64>),
}

// Scans the task whose turn it is at a raw instant.
fn try_tasks(
    alloc: Global,
    session: &mut Session,
    raw: i64,
    out: &mut Vec<u8>,
) -> Result<Tried, AllocError>
    ensures steered { steered_in session.new ≡ steered_in session.old }
    ensures tried { (h : CommandHistory) (lines : List ℕ) → HasSaid session.old h lines → IfOk result (λ tried.
        TriesAll session.old session.new out.old.items out.new.items h lines raw tried) }
{
    let tasks = session.plant().tasks().len();
    let mut earliest = None;
    'tasks: for number in 0..tasks {
        let answer = try_scan(alloc, session, TaskId(number as u8), raw, out)?;
        if !is_out_of_turn(answer) {
            return Ok(Tried::Answered(answer));
        }
        earliest = earlier(earliest, release_in(answer));
    }
    Ok(Tried::NoTurn(earliest))
}

// Scans the task whose turn it is at a raw instant, or the first task where it is no task's turn.
fn scan_at(
    alloc: Global,
    session: &mut Session,
    raw: i64,
    out: &mut Vec<u8>,
) -> Result<Result<Answer, Refusal>, AllocError>
    ensures steered { steered_in session.new ≡ steered_in session.old }
    ensures taken { (h : CommandHistory) (lines : List ℕ) → HasSaid session.old h lines → IfOk result (λ answer. IsTaken session.old session.new
        out.old.items out.new.items answer h lines (scanning.scan_at (steered_in session.old) h raw)) }
{
    match try_tasks(alloc, session, raw, out)? {
        Tried::Answered(answer) => Ok(answer),
        Tried::NoTurn(_) => scan_then(alloc, session, TaskId(0), raw, out),
    }
}

/// Scans the task that goes first: at the instant of the last accepted command, or where it is no task's turn then, at the earliest next release
/// of all tasks. What it answers or is refused for is put at the end of `out` as by `Session::command`, and nothing is told of other tries.
/// Where no task has a next release, the first task's refusal is told. The one error is that memory was refused; then the session is of no
/// more use.
pub fn scan_first(
    alloc: Global,
    session: &mut Session,
    out: &mut Vec<u8>,
) -> Result<Result<Answer, Refusal>, AllocError>
    ensures steered { steered_in session.new ≡ steered_in session.old }
    ensures taken { (h : CommandHistory) (lines : List ℕ) → HasSaid session.old h lines → IfOk result (λ answer. IsTaken session.old session.new
        out.old.items out.new.items answer h lines (first_scan_after (steered_in session.old) h)) }
{
    let raw = session.instant();
    match try_tasks(alloc, session, raw, out)? {
        Tried::Answered(answer) => Ok(answer),
        Tried::NoTurn(next) => {
            let later = instant_of(session, next);
            scan_at(alloc, session, later, out)
        }
    }
}
