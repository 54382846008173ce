//! Why there is no waveform.

use sfc_base::write_fault::WriteFault;
use sfc_replay::replay_error::ReplayError;
use std::alloc::AllocError;
use thiserror::Error;

/// Why there is no waveform, or only a front of one.
#[derive(Clone, Copy, Debug, PartialEq, Eq, Error)]
pub enum WaveError {
    /// The name at this place of those that are wanted is none of a signal, nor of what has signals. Nothing was written.
    #[error("the chart has no such signal")]
    NoSuchSignal(usize),
    /// The picture would have more than 1,048,576 changes. Nothing was written.
    #[error("the run has too many changes for a picture")]
    TooLong,
    /// The chart or the script is refused, a device failed, or memory was refused, as in a replay.
    #[error("{0}")]
    Replay(ReplayError),
}

impl From<ReplayError> for WaveError {
    fn from(error: ReplayError) -> WaveError {
        WaveError::Replay(error)
    }
}

impl From<AllocError> for WaveError {
    fn from(error: AllocError) -> WaveError {
        WaveError::Replay(ReplayError::from(error))
    }
}

impl From<WriteFault> for WaveError {
    fn from(fault: WriteFault) -> WaveError {
        WaveError::Replay(ReplayError::from(fault))
    }
}
