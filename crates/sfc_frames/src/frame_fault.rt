//! Why no message is read, or none is written.

ghost use Rattle.std.specs.Prelude.{◌≡◌};
ghost use Rattle.sfc_frames.specs.declared.frame_fault.FrameFault.TheVariants.{Memory};
ghost use Rattle.sfc_frames.specs.declared.frame_fault.PutFault.TheVariants.{Write as WriteVariant};

use sfc_base::write_fault::WriteFault;
use std::alloc::{AllocError, AllocFailed};
use thiserror::Error;

/// Why no frame begins as a stream does.
#[derive(Clone, Copy, Debug, PartialEq, Eq, Error)]
pub enum Malformed {
    /// The head has no field Content-Length.
    #[error("the head has no Content-Length")]
    NoLength,
    /// What stands in the field Content-Length is no number.
    #[error("Content-Length is no number")]
    NotANumber,
    /// The message has more than 16,777,216 bytes.
    #[error("the message is longer than 16,777,216 bytes")]
    MessageTooLong,
    /// A line of the head has more than 1,024 bytes, or the head has more than 16 lines.
    #[error("the head is too long")]
    HeadTooLong,
}

/// Why no message is read. Nothing of what was read is lost.
#[derive(Clone, Copy, Debug, PartialEq, Eq, Error)]
pub enum FrameFault {
    /// No frame begins so. Each later call answers the same.
    #[error("no frame: {0}")]
    Malformed(Malformed),
    /// The stream ends within a frame.
    #[error("the input ends within a frame")]
    EndsWithin,
    /// The reader failed. A later call may go on.
    #[error("read fault")]
    Read,
    /// Memory was refused. A later call may go on.
    #[error("Memory was refused")]
    Memory,
}

impl From<AllocError> for FrameFault {
    ghost from_gives = { λ _ fault. fault ≡ Memory };

    fn from(_error: AllocError) -> FrameFault {
        FrameFault::Memory
    }
}

impl<T: Drop> From<AllocFailed<T>> for FrameFault {
    ghost from_gives = { λ _ fault. fault ≡ Memory };

    fn from(_error: AllocFailed<T>) -> FrameFault {
        FrameFault::Memory
    }
}

/// Why a message is not written.
#[derive(Clone, Copy, Debug, PartialEq, Eq, Error)]
pub enum PutFault {
    /// The message has more than 16,777,216 bytes. Nothing was written.
    #[error("the message is longer than 16,777,216 bytes")]
    TooLong,
    /// The writer failed, or took no byte. A front of the frame was written.
    #[error("write fault")]
    Write,
}

impl From<WriteFault> for PutFault {
    ghost from_gives = { λ _ fault. fault ≡ WriteVariant };

    fn from(_fault: WriteFault) -> PutFault {
        PutFault::Write
    }
}
