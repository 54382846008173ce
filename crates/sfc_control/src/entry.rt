//! What is entered in a history.

use sfc_events::command::{Answer, Command};

/// A command that was accepted, under the seat that gave it.
#[derive(Clone, Copy, Debug, PartialEq, Eq)]
pub struct Entry {
    /// The number of the seat.
    pub seat: u8,
    /// What was asked.
    pub command: Command,
    /// When it was given, by the caller's clock, in microseconds.
    pub raw: i64,
    /// What was answered.
    pub answer: Answer,
}
