//! Why a drawing ends early.

use std::alloc::{AllocError, AllocFailed};

/// Why a drawing ends early.
#[derive(Clone, Copy, Debug, PartialEq, Eq)]
pub enum DrawError {
    /// It would be 2^32 pixels wide or high.
    TooLarge,
    OutOfMemory,
}

impl From<AllocError> for DrawError {
    fn from(_error: AllocError) -> DrawError {
        DrawError::OutOfMemory
    }
}

impl<T: Drop> From<AllocFailed<T>> for DrawError {
    fn from(_error: AllocFailed<T>) -> DrawError {
        DrawError::OutOfMemory
    }
}
