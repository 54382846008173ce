//! What a caller keeps of an accepted command.

use crate::entry::Entry;
use sfc_events::command::{Answer, Command};

/// What a seat is told of its accepted command: the entry, and where it stands.
#[derive(Clone, Copy, Debug, PartialEq, Eq)]
pub struct Receipt {
    /// The number of the seat.
    pub seat: u8,
    /// Which of all accepted commands it is, from 1.
    pub index: u64,
    /// What was asked.
    pub command: Command,
    /// When it was given, by the caller's clock, in microseconds.
    pub raw: i64,
    /// What was answered.
    pub answer: Answer,
}

ghost use Rattle.std.specs.Prelude.{◌≡◌, IsTrue, ◌↔◌};

// Whether they are the same command.
fn is_command(a: &Command, b: &Command) -> bool
    ensures { IsTrue result ↔ (a.now ≡ b.now) }
{
    a == b
}

// Whether they are the same answer.
fn is_answer(a: &Answer, b: &Answer) -> bool
    ensures { IsTrue result ↔ (a.now ≡ b.now) }
{
    a == b
}

impl Receipt {
    ghost use Rattle.sfc_control.specs.Receipts.{entry_of};

    // Whether the entry is the receipt's.
    pub(crate) fn is_of(&self, entry: &Entry) -> bool
        ensures { IsTrue result ↔ (entry.now ≡ entry_of self.now) }
    {
        entry.seat == self.seat
            && entry.raw == self.raw
            && is_command(&entry.command, &self.command)
            && is_answer(&entry.answer, &self.answer)
    }
}
