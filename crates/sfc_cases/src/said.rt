//! What a line of a test says.

use crate::deed::Deed;
use crate::instant::Instant;
use crate::named::Named;
use sfc_debug::break_condition::BreakCondition;
use sfc_events::command::Point;

/// What a line of a test says.
#[derive(Drop)]
pub enum Said {
    /// Nothing: it has no words, or begins with a semicolon.
    Nothing,
    /// A name stands for a word from the next line on.
    Names(Named),
    /// It does this at this instant.
    Does(Instant, Deed),
    /// A breakpoint at a point is set at this instant, which waits for the condition.
    Waits(Instant, Point, BreakCondition),
    /// It can't be read.
    Wrong,
}
