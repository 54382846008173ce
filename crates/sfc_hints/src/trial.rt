//! What the reader says of the front of a text, and of that front with another token behind it. So what may stand at a place is
//! what the grammar itself accepts there.

use sfc_events::read_error::{ReadError, ReadErrorKind};
use sfc_text::read::read;
use sfc_text::read_expr::read_expr;
use sfc_tokens::lines::last_line;
use std::alloc::{AllocError, Global};

/// What a text is to be read as.
#[derive(Clone, Copy)]
pub enum Goal {
    /// Program types and a configuration.
    Chart,
    /// One expression.
    Expression,
}

/// What a text is.
#[derive(Clone, Copy, PartialEq, Eq)]
pub enum Outcome {
    /// It is read whole.
    Whole,
    /// More has to follow.
    Front,
    /// Whatever follows, it can't be read.
    Wrong,
}

// Reads the text, and gives up what it is read as.
fn read_as(alloc: Global, goal: Goal, text: &[u8]) -> Result<(), ReadError> {
    match goal {
        Goal::Chart => match read(alloc, text) {
            Ok(_) => Ok(()),
            Err(error) => Err(error),
        },
        Goal::Expression => match read_expr(alloc, text) {
            Ok(_) => Ok(()),
            Err(error) => Err(error),
        },
    }
}

// What the text is, which ends with a line of its own: a fault there is one of the text's end.
fn outcome_of(alloc: Global, goal: Goal, text: &[u8]) -> Result<Outcome, AllocError> {
    match read_as(alloc, goal, text) {
        Ok(()) => Ok(Outcome::Whole),
        Err(error) if error.kind == ReadErrorKind::Memory => Err(AllocError),
        Err(error) if error.line == last_line(text) => Ok(Outcome::Front),
        Err(_) => Ok(Outcome::Wrong),
    }
}

/// What the front of a text is with more behind it, which a blank parts from it. The one error is that memory was refused.
pub fn try_front(
    alloc: Global,
    goal: Goal,
    front: &[u8],
    more: &[u8],
) -> Result<Outcome, AllocError> {
    let mut text = Vec::from_slice(alloc, front)?;
    text.extend_from_slice(b" ")?;
    text.extend_from_slice(more)?;
    text.extend_from_slice(b"\n")?;
    outcome_of(alloc, goal, &text)
}
