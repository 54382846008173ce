//! What keeps the lexer from going on.

ghost use Rattle.std.specs.Prelude.{◌≡◌};
ghost use Rattle.sfc_tokens.specs.declared.lex_fault.LexFault.TheVariants.{Memory};

use sfc_events::read_error::ReadErrorKind;
use std::alloc::{AllocError, AllocFailed};

/// What is wrong with the text at one place, or want of memory.
#[derive(Clone, Copy, Debug, PartialEq, Eq)]
pub enum LexFault {
    Memory,
    /// What is wrong, and how many bytes are left behind what is.
    Wrong(ReadErrorKind, usize),
}

impl From<AllocError> for LexFault {
    ghost from_gives = { λ _ fault. fault ≡ Memory };

    fn from(_error: AllocError) -> LexFault {
        LexFault::Memory
    }
}

impl<T: Drop> From<AllocFailed<T>> for LexFault {
    ghost from_gives = { λ _ fault. fault ≡ Memory };

    fn from(_error: AllocFailed<T>) -> LexFault {
        LexFault::Memory
    }
}
