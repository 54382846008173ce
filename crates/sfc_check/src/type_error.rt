//! Why an expression or a statement was refused.

ghost use Rattle.std.specs.Prelude.{◌≡◌};
ghost use Rattle.sfc_check.specs.declared.type_error.TypeError.TheVariants.{Memory};

use sfc_events::load_error::LoadError;
use std::alloc::{AllocError, AllocFailed};

/// The first type fault of a text (3.3.1, 3.3.2), or want of memory.
#[derive(Clone, Copy, Debug, PartialEq, Eq)]
pub enum TypeError {
    /// A name is not found.
    Unknown,
    /// A type is not the wanted one, or an operator is not for it.
    WrongType,
    /// An integer lies outside the range of the wanted type.
    LiteralRange,
    /// A name with a dot can't be assigned to.
    NotAssignable,
    /// Memory was refused.
    Memory,
}

impl From<AllocError> for TypeError {
    ghost from_gives = { λ _ error. error ≡ Memory };

    fn from(_error: AllocError) -> TypeError {
        TypeError::Memory
    }
}

impl<T: Drop> From<AllocFailed<T>> for TypeError {
    ghost from_gives = { λ _ error. error ≡ Memory };

    fn from(_error: AllocFailed<T>) -> TypeError {
        TypeError::Memory
    }
}

/// The refusal that a type fault is.
impl From<TypeError> for LoadError {
    ghost use Rattle.sfc_check.specs.TypeFaults.{of_type_error};

    ghost from_gives = { λ fault error. error ≡ of_type_error fault };

    fn from(fault: TypeError) -> LoadError {
        match fault {
            TypeError::Unknown => LoadError::Unknown,
            TypeError::WrongType => LoadError::WrongType,
            TypeError::LiteralRange => LoadError::LiteralRange,
            TypeError::NotAssignable => LoadError::NotAssignable,
            TypeError::Memory => LoadError::Memory,
        }
    }
}
