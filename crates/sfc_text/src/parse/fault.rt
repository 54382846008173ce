//! What keeps a parser from going on.

ghost use Rattle.std.specs.Prelude.{◌≡◌};
ghost use Rattle.sfc_text.specs.declared.parse.fault.ParseFault.TheVariants.{Memory};

use std::alloc::{AllocError, AllocFailed};

/// What is wrong with the tokens, with how many were left at that place, or want of memory.
#[derive(Clone, Copy, Debug, PartialEq, Eq)]
pub enum ParseFault {
    Memory,
    /// The token there can't go on what stands before it.
    Syntax { left: usize },
    /// A limit is passed there: of nesting, or of operators.
    TooDeep { left: usize },
}

impl From<AllocError> for ParseFault {
    ghost from_gives = { λ _ fault. fault ≡ Memory };

    fn from(_error: AllocError) -> ParseFault {
        ParseFault::Memory
    }
}

impl<T: Drop> From<AllocFailed<T>> for ParseFault {
    ghost from_gives = { λ _ fault. fault ≡ Memory };

    fn from(_error: AllocFailed<T>) -> ParseFault {
        ParseFault::Memory
    }
}
