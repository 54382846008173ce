//! Why there is no drawing.

use sfc_layout::layout_error::LayoutError;
use std::alloc::AllocError;
use thiserror::Error;

/// Why there is no drawing.
#[derive(Clone, Copy, Debug, PartialEq, Eq, Error)]
pub enum DrawingError {
    /// A chart has no layout: it would be too large, or memory was refused.
    #[error("{0}")]
    Layout(LayoutError),
    /// Memory was refused.
    #[error("out of memory")]
    OutOfMemory,
}

impl From<AllocError> for DrawingError {
    fn from(_error: AllocError) -> DrawingError {
        DrawingError::OutOfMemory
    }
}

impl From<LayoutError> for DrawingError {
    fn from(error: LayoutError) -> DrawingError {
        match error {
            LayoutError::OutOfMemory => DrawingError::OutOfMemory,
            _ => DrawingError::Layout(error),
        }
    }
}
