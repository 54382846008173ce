//! Tables of bits of a fixed size: sets of steps, transitions, inputs and actions.
#![tactic(auto)]

/// where a walk over a table stands
pub mod cursor;
/// the table, one flag for each place
pub mod flags;
/// the flags of 64 places at once
pub mod word;
// bits in a slice of words
mod words;
