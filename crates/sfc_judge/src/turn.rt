//! Whose turn it is.

ghost use Rattle.std.specs.Prelude.{◌≡◌};
ghost use Rattle.sfc_session.specs.Scanning as scanning;

use crate::given::Given;
use sfc_events::command::Answer;
use sfc_events::refusal::Refusal;

/// What came of trying all tasks at an instant.
#[derive(Clone, Copy, Debug)]
pub enum Turn {
    /// It is the turn of a task. Its scan was given.
    Taken(Given),
    /// It is no task's turn. This is the earliest next release, a run instant, if a task has one.
    NoTurn(Option<i64>),
}

/// Whether a scan was refused since it isn't the task's turn.
pub fn is_out_of_turn(answer: Result<Answer, Refusal>) -> bool
    ensures { result ≡ scanning.is_out_of_turn answer }
{
    match answer {
        Err(Refusal::NotDue(_)) | Err(Refusal::Yield(_)) => true,
        _ => false,
    }
}

/// The next release of a task whose scan was refused since it isn't due, a run instant, if there is one.
pub fn release_in(answer: Result<Answer, Refusal>) -> Option<i64>
    ensures { result ≡ scanning.release_in answer }
{
    match answer {
        Err(Refusal::NotDue(next)) => next,
        _ => None,
    }
}

/// The earlier of two instants, if there are any.
pub fn earlier(first: Option<i64>, second: Option<i64>) -> Option<i64>
    ensures { result ≡ scanning.earlier first second }
{
    let Some(next) = first else {
        return second;
    };
    match second {
        Some(other) => Some(if next <= other { next } else { other }),
        None => Some(next),
    }
}
