//! Scans that come next (2.7.2).

ghost use Rattle.std.specs.Prelude.{◌≡◌};
ghost use Rattle.sfc_replay.specs.sfc_debug.Histories.{CommandHistory};
ghost use Rattle.sfc_session.specs.Scanning as scanning;
ghost use Rattle.sfc_c.specs.Advancing as advancing;
ghost use Rattle.sfc_c.specs.Advancing.{IsMade, MakesScan, TakesTurn};
ghost use Rattle.sfc_c.specs.Resources.{Stands, slots_in, steered_in};

use crate::plc::Plc;
use crate::sfc_debug::timed::Timed;
use sfc_base::ids::TaskId;
use sfc_events::command::{Answer, Command};
use sfc_events::refusal::Refusal;

/// A scan that was made, or refused.
#[derive(Clone, Copy, Debug, PartialEq, Eq)]
pub struct Scan {
    /// The task.
    pub task: TaskId,
    /// The raw instant, in microseconds.
    pub raw: i64,
    /// What it answered, or was refused for.
    pub answer: Result<Answer, Refusal>,
}

/// What came of trying all tasks at an instant.
#[derive(Clone, Copy, Debug, PartialEq, Eq)]
pub enum Turn {
    /// It is the turn of a task. Its scan was made, or refused for another reason.
    Taken(Scan),
    /// It is no task's turn. This is the earliest next release, a run instant, if a task has one.
    NoTurn(Option<i64>),
}

/// Whether a scan was refused since it isn't the task's turn.
pub fn is_out_of_turn(answer: Result<Answer, Refusal>) -> bool
    ensures { result ≡ scanning.is_out_of_turn answer }
{
    match answer {
        Err(Refusal::NotDue(_)) | Err(Refusal::Yield(_)) => true,
        _ => false,
    }
}

// The next release of a task whose scan was refused since it isn't due, a run instant, if there is one.
fn release_in(answer: Result<Answer, Refusal>) -> Option<i64>
    ensures { result ≡ scanning.release_in answer }
{
    match answer {
        Err(Refusal::NotDue(next)) => next,
        _ => None,
    }
}

// The earlier of two instants, if there are any.
fn earlier(first: Option<i64>, second: Option<i64>) -> Option<i64>
    ensures { result ≡ scanning.earlier first second }
{
    let Some(next) = first else {
        return second;
    };
    match second {
        Some(other) => Some(if next <= other { next } else { other }),
        None => Some(next),
    }
}

// A scan of a task at a raw instant.
fn make_scan(plc: &mut Plc, task: TaskId, raw: i64) -> Scan
    ensures steered { steered_in plc.new ≡ steered_in plc.old }
    ensures slots { slots_in plc.new ≡ slots_in plc.old }
    ensures made { (h : CommandHistory) → Stands plc.old h → IsMade (steered_in plc.old) h (advancing.scan_of task.0 raw) result plc.new }
{
    let answer = plc.obey(Timed {
        command: Command::Scan(task),
        raw,
    });
    Scan { task, raw, answer }
}

// Scans the task whose turn it is at a raw instant.
fn take_turn(plc: &mut Plc, raw: i64) -> Turn
    ensures steered { steered_in plc.new ≡ steered_in plc.old }
    ensures slots { slots_in plc.new ≡ slots_in plc.old }
    ensures takes { (h : CommandHistory) → Stands plc.old h → TakesTurn (steered_in plc.old) h raw result plc.new }
{
    let tasks = plc.debugger().resource().plant().tasks().len();
    let mut earliest = None;
    'tasks: for number in 0..tasks {
        let made = make_scan(plc, TaskId(number as u8), raw);
        if !is_out_of_turn(made.answer) {
            return Turn::Taken(made);
        }
        earliest = earlier(earliest, release_in(made.answer));
    }
    Turn::NoTurn(earliest)
}

// Scans the task whose turn it is at a raw instant, or the first task where it is no task's turn.
fn scan_at(plc: &mut Plc, raw: i64) -> Scan
    ensures steered { steered_in plc.new ≡ steered_in plc.old }
    ensures slots { slots_in plc.new ≡ slots_in plc.old }
    ensures made { (h : CommandHistory) → Stands plc.old h →
        IsMade (steered_in plc.old) h (scanning.scan_at (steered_in plc.old) h raw) result plc.new }
{
    match take_turn(plc, raw) {
        Turn::Taken(made) => made,
        Turn::NoTurn(_) => make_scan(plc, TaskId(0), raw),
    }
}

/// Makes the scan that comes next: of the task whose turn it is at the instant of the latest accepted command, or where it is no task's
/// turn then, at the earliest next release of all tasks. None, and nothing changes, where none comes up to this raw instant, in microseconds.
pub fn next_scan(plc: &mut Plc, until: i64) -> Option<Scan>
    ensures steered { steered_in plc.new ≡ steered_in plc.old }
    ensures slots { slots_in plc.new ≡ slots_in plc.old }
    ensures makes { (h : CommandHistory) → Stands plc.old h →
        MakesScan (steered_in plc.old) h (advancing.next_scan (steered_in plc.old) until h) result plc.new }
{
    let now = plc.instant();
    if now > until {
        return None;
    }
    match take_turn(plc, now) {
        Turn::Taken(made) => Some(made),
        Turn::NoTurn(None) => None,
        Turn::NoTurn(Some(next)) => {
            let raw = plc.raw_of(next);
            if raw <= until {
                return Some(scan_at(plc, raw));
            }
            None
        }
    }
}
