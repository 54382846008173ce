//! Why there is no text.

ghost use Rattle.std.specs.Prelude.{◌≡◌};
ghost use Rattle.sfc_tools.specs.Codes as codes;

use sfc_drawing::drawing_error::DrawingError;
use sfc_replay::replay_error::{ChartError, ReplayError};
use sfc_svg::svg_error::SvgError;
use sfc_wave::wave_error::WaveError;
use std::alloc::AllocError;
use thiserror::Error;

/// Why there is no text.
#[derive(Clone, Copy, Debug, PartialEq, Eq, Error)]
pub enum ToolError {
    /// The drawing or the waveform would be too large.
    #[error("the text would be too large")]
    TooLarge,
    /// The chart or the script is refused, or memory was, as in a replay.
    #[error("{0}")]
    Replay(ReplayError),
}

impl ToolError {
    /// The number of a chart's fault, from 1 on; else -4 where memory was refused, -5 where a line of a script or of tests says nothing,
    /// and -7 where the text would be too large (our choice).
    pub fn code(self) -> i32
        ensures { result ≡ codes.code_of self }
    {
        match self {
            ToolError::TooLarge => -7,
            ToolError::Replay(ReplayError::Chart(ChartError::Read(error))) => {
                i32::from(error.kind.number())
            }
            ToolError::Replay(ReplayError::Chart(ChartError::Load(error))) => {
                i32::from(error.number())
            }
            ToolError::Replay(ReplayError::Script(_)) => -5,
            ToolError::Replay(ReplayError::Read | ReplayError::Write | ReplayError::Memory) => -4,
        }
    }
}

// No device is read or written here: for a text in memory both fail where memory is refused alone.
impl From<ReplayError> for ToolError {
    ghost use Rattle.std.specs.Prelude.{◌≡◌};
    ghost use Rattle.sfc_tools.specs.Codes.{of_replay};

    ghost from_gives = { λ error given. given ≡ of_replay error };

    fn from(error: ReplayError) -> ToolError {
        match error {
            ReplayError::Read | ReplayError::Write => ToolError::Replay(ReplayError::Memory),
            _ => ToolError::Replay(error),
        }
    }
}

// No program type is named here.
impl From<SvgError> for ToolError {
    ghost use Rattle.std.specs.Prelude.{◌≡◌};
    ghost use Rattle.sfc_tools.specs.Codes.{of_svg};

    ghost from_gives = { λ error given. given ≡ of_svg error };

    fn from(error: SvgError) -> ToolError {
        match error {
            SvgError::Replay(error) => ToolError::from(error),
            SvgError::NoSuchType | SvgError::TooLarge => ToolError::TooLarge,
        }
    }
}

impl From<AllocError> for ToolError {
    ghost use Rattle.std.specs.Prelude.{◌≡◌};
    ghost use Rattle.sfc_tools.specs.Codes.{no_memory};

    ghost from_gives = { λ _ given. given ≡ no_memory };

    fn from(_error: AllocError) -> ToolError {
        ToolError::Replay(ReplayError::Memory)
    }
}

/// Of a drawing of a chart and a script that were read before.
pub fn undrawn(error: DrawingError) -> ToolError
    ensures { result ≡ codes.of_drawing error }
{
    match error {
        DrawingError::Layout(_) => ToolError::TooLarge,
        DrawingError::OutOfMemory => ToolError::Replay(ReplayError::Memory),
    }
}

/// Of a waveform of a chart and a script that were read before. No signal is named here.
pub fn unwaved(error: WaveError) -> ToolError
    ensures { result ≡ codes.of_wave error }
{
    match error {
        WaveError::TooLong => ToolError::TooLarge,
        WaveError::Replay(_) | WaveError::NoSuchSignal(_) => ToolError::Replay(ReplayError::Memory),
    }
}
