//! Why there is no picture.

use sfc_base::write_fault::WriteFault;
use sfc_replay::replay_error::ReplayError;
use std::alloc::AllocError;
use thiserror::Error;

/// Why there is no picture, or only a front of one.
#[derive(Debug, Drop, Error)]
pub enum PictureError {
    /// The chart has no program type of the name that is wanted. Nothing was written.
    #[error("no such program type")]
    NoSuchType,
    /// The chart or the script is refused, a device failed, or memory was refused, as in a replay.
    #[error("{0}")]
    Monitor(ReplayError),
}

impl From<ReplayError> for PictureError {
    fn from(error: ReplayError) -> PictureError {
        PictureError::Monitor(error)
    }
}

impl From<AllocError> for PictureError {
    fn from(error: AllocError) -> PictureError {
        PictureError::Monitor(ReplayError::from(error))
    }
}

impl From<WriteFault> for PictureError {
    fn from(fault: WriteFault) -> PictureError {
        PictureError::Monitor(ReplayError::from(fault))
    }
}
