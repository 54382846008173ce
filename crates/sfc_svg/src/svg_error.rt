//! Why there is no drawing.

use sfc_base::write_fault::WriteFault;
use sfc_drawing::drawing_error::DrawingError;
use sfc_replay::replay_error::ReplayError;
use std::alloc::AllocError;
use thiserror::Error;

/// Why there is no drawing, or only a front of one.
#[derive(Clone, Copy, Debug, PartialEq, Eq, Error)]
pub enum SvgError {
    /// The chart has no program type of the name that is wanted. Nothing was written.
    #[error("the chart has no program type of that name")]
    NoSuchType,
    /// The drawing would be 2^32 pixels wide or high. Nothing was written.
    #[error("the drawing is too large")]
    TooLarge,
    /// The chart or the script is refused, a device failed, or memory was refused, as in a replay.
    #[error("{0}")]
    Replay(ReplayError),
}

impl From<ReplayError> for SvgError {
    ghost use Rattle.std.specs.Prelude.{◌≡◌};
    ghost use Rattle.sfc_svg.specs.declared.svg_error.SvgError.TheVariants as svg;

    ghost from_gives = { λ error given. given ≡ svg.Replay error };

    fn from(error: ReplayError) -> SvgError {
        SvgError::Replay(error)
    }
}

impl From<AllocError> for SvgError {
    ghost use Rattle.std.specs.Prelude.{◌≡◌};
    ghost use Rattle.sfc_replay.specs.declared.replay_error.ReplayError.TheVariants as replay;
    ghost use Rattle.sfc_svg.specs.declared.svg_error.SvgError.TheVariants as svg;

    ghost from_gives = { λ _ given. given ≡ svg.Replay replay.Memory };

    fn from(_error: AllocError) -> SvgError {
        SvgError::Replay(ReplayError::Memory)
    }
}

impl From<WriteFault> for SvgError {
    ghost use Rattle.std.specs.Prelude.{◌≡◌};
    ghost use Rattle.sfc_replay.specs.declared.replay_error.ReplayError.TheVariants as replay;
    ghost use Rattle.sfc_svg.specs.declared.svg_error.SvgError.TheVariants as svg;

    ghost from_gives = { λ _ given. given ≡ svg.Replay replay.Write };

    fn from(_fault: WriteFault) -> SvgError {
        SvgError::Replay(ReplayError::Write)
    }
}

impl From<DrawingError> for SvgError {
    ghost use Rattle.sfc_svg.specs.Drawn.{of_drawing};
    ghost use Rattle.std.specs.Prelude.{◌≡◌};

    ghost from_gives = { λ error given. given ≡ of_drawing error };

    fn from(error: DrawingError) -> SvgError {
        match error {
            DrawingError::Layout(_) => SvgError::TooLarge,
            DrawingError::OutOfMemory => SvgError::Replay(ReplayError::Memory),
        }
    }
}
