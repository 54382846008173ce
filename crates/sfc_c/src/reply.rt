//! What C reads of the answer to a command.

ghost use Rattle.std.specs.Prelude.{◌≡◌, Err};
ghost use Rattle.sfc_c.specs.Codes as codes;

use crate::number::{flag, told};
use sfc_events::command::Answer;
use sfc_events::refusal::Refusal;

/// What a command answered: `sfc_reply_t` of `sfc.h`.
#[repr(C)]
#[derive(Clone, Copy)]
pub struct Reply {
    /// One bit for each program instance of the task that ran without a fault, the lowest for the first.
    pub ran: u64,
    /// Those whose scan ended with a fault.
    pub faulted: u64,
    /// Those that were passed over because of an earlier fault.
    pub skipped: u64,
    /// The task's overruns since the opening.
    pub overruns: u64,
    /// Where a scan was not due: the run instant of the task's next release by its interval, in microseconds; else -1.
    pub next: i64,
    /// What a variable was read as; else 0.
    pub value: i64,
    /// Where another task goes first: its number; else -1.
    pub first: i32,
    /// 1 where a breakpoint was hit; else 0.
    pub hit: i32,
}

/// What is told where nothing is.
pub const NOTHING: Reply = Reply {
    ran: 0,
    faulted: 0,
    skipped: 0,
    overruns: 0,
    next: -1,
    value: 0,
    first: -1,
    hit: 0,
};

// What is told of a refusal.
fn refused(refusal: Refusal) -> Reply
    ensures { result ≡ codes.reply_of (Err refusal) }
{
    match refusal {
        Refusal::NotDue(Some(next)) => Reply { next, ..NOTHING },
        Refusal::Yield(task) => Reply {
            first: i32::from(task.0),
            ..NOTHING
        },
        _ => NOTHING,
    }
}

/// What is told of an answer.
pub fn telling(answered: Result<Answer, Refusal>) -> Reply
    ensures { result ≡ codes.reply_of answered }
{
    match answered {
        Ok(Answer::Done) => NOTHING,
        Ok(Answer::Value(value)) => Reply {
            value: told(value),
            ..NOTHING
        },
        Ok(
            Answer::Scanned {
                ran,
                faulted,
                skipped,
                overruns,
                hit,
            },
        ) => Reply {
            ran: ran.bits,
            faulted: faulted.bits,
            skipped: skipped.bits,
            overruns,
            next: -1,
            value: 0,
            first: -1,
            hit: flag(hit),
        },
        Err(refusal) => refused(refusal),
    }
}

/// 0, or the number of the refusal.
pub fn code(answered: Result<Answer, Refusal>) -> i32
    ensures { result ≡ codes.code_of answered }
{
    match answered {
        Ok(_) => 0,
        Err(refusal) => i32::from(refusal.number()),
    }
}
