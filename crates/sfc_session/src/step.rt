//! Steps, which may be done again.

ghost use Rattle.std.specs.Prelude.{◌≡◌, List, ℕ, IfOk};
ghost use Rattle.sfc_output.specs.sfc_debug.Histories.{CommandHistory};
ghost use Rattle.sfc_events.specs.declared.command.Command.TheVariants.{Single};
ghost use Rattle.sfc_session.specs.Scanning as scanning;
ghost use Rattle.sfc_session.specs.Scanning.{step_after};
ghost use Rattle.sfc_session.specs.Sessions.{HasSaid, IsTaken, last_instant, steered_in, words_of};

use crate::scanning::{scan, scan_first};
use crate::session::Session;
use crate::sfc_debug::timed::Timed;
use sfc_base::ids::TaskId;
use sfc_events::command::{Answer, Command};
use sfc_events::refusal::Refusal;
use sfc_page::append::{append, append_time};
use sfc_plant::names::task_name;
use std::alloc::{AllocError, Global};

/// A scan that is done by hand, without the instant at which it was said.
#[derive(Clone, Copy, Debug, PartialEq, Eq)]
pub enum Step {
    /// That of the task that goes first.
    First,
    /// That of a task.
    Task(TaskId),
    /// A single one of a task, after so many microseconds.
    Single(TaskId, i64),
}

/// The step that a command is, if it is one.
pub fn step_of(command: Command) -> Option<Step>
    ensures { result ≡ scanning.step_of command }
{
    match command {
        Command::Scan(task) => Some(Step::Task(task)),
        Command::Single(task, micros) => Some(Step::Single(task, micros)),
        _ => None,
    }
}

/// Whether no more steps should follow one that was answered so: it was refused, hit a breakpoint, or ended a program's scan with a fault.
pub fn ends_steps(answer: Result<Answer, Refusal>) -> bool
    ensures { result ≡ scanning.ends_steps answer }
{
    match answer {
        Ok(Answer::Scanned { faulted, hit, .. }) => hit || !faulted.is_empty(),
        Ok(_) => false,
        Err(_) => true,
    }
}

// The words of a single scan.
fn single_words(
    alloc: Global,
    session: &Session,
    task: TaskId,
    micros: i64,
) -> Result<Vec<u8>, AllocError>
    ensures { IfOk result (λ words. words.items ≡ words_of (steered_in session.now) (Single task micros)) }
{
    let tasks = session.plant().tasks();
    let mut words = Vec::new(alloc);
    append(&mut words, b"SINGLE ")?;
    append(&mut words, task_name(tasks, usize::from(task.0)))?;
    append(&mut words, b" ")?;
    append_time(&mut words, micros)?;
    Ok(words)
}

// A single scan of a task, at the instant of the last accepted command.
fn single(
    alloc: Global,
    session: &mut Session,
    task: TaskId,
    micros: i64,
    out: &mut Vec<u8>,
) -> Result<Result<Answer, Refusal>, AllocError>
    ensures steered { steered_in session.new ≡ steered_in session.old }
    ensures taken { (h : CommandHistory) (lines : List ℕ) → HasSaid session.old h lines → IfOk result (λ answer.
        IsTaken session.old session.new out.old.items out.new.items answer h lines (Single task micros, last_instant h)) }
{
    let words = single_words(alloc, session, task, micros)?;
    let timed = Timed {
        command: Command::Single(task, micros),
        raw: session.instant(),
    };
    session.command(alloc, timed, &words, out)
}

/// Does a step from the last accepted command on. What it answers or is refused for is put at the end of `out` as by `Session::command`. The
/// one error is that memory was refused; then the session is of no more use.
pub fn take(
    alloc: Global,
    session: &mut Session,
    step: Step,
    out: &mut Vec<u8>,
) -> Result<Result<Answer, Refusal>, AllocError>
    ensures steered { steered_in session.new ≡ steered_in session.old }
    ensures taken { (h : CommandHistory) (lines : List ℕ) → HasSaid session.old h lines → IfOk result (λ answer. IsTaken session.old session.new
        out.old.items out.new.items answer h lines (step_after (steered_in session.old) h step)) }
{
    match step {
        Step::First => scan_first(alloc, session, out),
        Step::Task(task) => scan(alloc, session, task, out),
        Step::Single(task, micros) => single(alloc, session, task, micros, out),
    }
}
