//! Why no table of conditions is made.

ghost use Rattle.std.specs.Prelude.{◌≡◌};
ghost use Rattle.sfc_script.specs.declared.condition_error.ConditionError.TheVariants.{Memory};

use crate::sfc_check::type_error::TypeError;
use std::alloc::{AllocError, AllocFailed};
use thiserror::Error;

/// The first entry that is no condition, or want of memory. Entries are numbered from 0.
#[derive(Clone, Copy, Debug, PartialEq, Eq, Error)]
pub enum ConditionError {
    /// The program instance of this entry isn't one of the plant's.
    #[error("condition {0}: its program instance is not there")]
    UnknownProgram(usize),
    /// The expression of this entry isn't a BOOL expression of its program instance, by this fault of its types.
    #[error("condition {0}: {1:?}")]
    Wrong(usize, TypeError),
    /// Memory was refused.
    #[error("Memory was refused")]
    Memory,
}

impl From<AllocError> for ConditionError {
    ghost from_gives = { λ _ error. error ≡ Memory };

    fn from(_error: AllocError) -> ConditionError {
        ConditionError::Memory
    }
}

impl<T: Drop> From<AllocFailed<T>> for ConditionError {
    ghost from_gives = { λ _ error. error ≡ Memory };

    fn from(_error: AllocFailed<T>) -> ConditionError {
        ConditionError::Memory
    }
}
