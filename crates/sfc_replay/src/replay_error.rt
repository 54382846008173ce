//! Why a chart and a script were not played to their end.

ghost use Rattle.std.specs.Prelude.{◌≡◌};
ghost use Rattle.sfc_replay.specs.declared.replay_error.ReplayError.TheVariants.{Memory, Write as WriteVariant};
ghost use Rattle.sfc_replay.specs.ReplayErrors.{of_script, of_read, of_load, status_of};

use sfc_base::write_fault::WriteFault;
use sfc_events::load_error::LoadError;
use sfc_events::read_error::{ReadError, ReadErrorKind};
use sfc_script::script::ScriptError;
use std::alloc::AllocError;
use std::error::Error;
use std::fmt;

/// Why a chart was refused: by the reader, or by the loader.
#[derive(Clone, Copy, Debug, PartialEq, Eq)]
pub enum ChartError {
    Read(ReadError),
    Load(LoadError),
}

impl fmt::Display for ChartError {
    ghost use Rattle.std.specs.Prelude.{Some};
    ghost use Rattle.sfc_replay.specs.ReplayErrors.{chart_text};

    ghost output = { λ error. Some (chart_text error) };

    fn fmt<W: fmt::Write>(&self, f: &mut fmt::Formatter<W>) -> fmt::Result {
        match self {
            ChartError::Read(error) => write!(f, "{error}"),
            ChartError::Load(error) => write!(f, "{error}"),
        }
    }
}

impl Error for ChartError {}

/// Why a chart and a script were not played to their end.
#[derive(Clone, Copy, Debug, PartialEq, Eq)]
pub enum ReplayError {
    /// The chart is refused. Nothing was written.
    Chart(ChartError),
    /// The script is refused at this line, counted from 1, or for its length at 0. Nothing was written.
    Script(usize),
    /// A reader failed. Nothing was written.
    Read,
    /// The writer failed or took no byte. A front of the output was written.
    Write,
    /// Memory was refused. A front of the output was written.
    Memory,
}

/// The text for standard error.
impl fmt::Display for ReplayError {
    ghost use Rattle.std.specs.Prelude.{Some};
    ghost use Rattle.sfc_replay.specs.ReplayErrors.{error_text};

    ghost output = { λ error. Some (error_text error) };

    fn fmt<W: fmt::Write>(&self, f: &mut fmt::Formatter<W>) -> fmt::Result {
        match self {
            ReplayError::Chart(error) => write!(f, "{error}"),
            ReplayError::Script(line) => write!(f, "script line {line}"),
            ReplayError::Read => f.write_str("read fault"),
            ReplayError::Write => f.write_str("write fault"),
            ReplayError::Memory => f.write_str("out of memory"),
        }
    }
}

impl Error for ReplayError {}

impl ReplayError {
    /// The exit status of a program that ends with it: 1 where the chart or the script is refused, 3 where a reader or the
    /// writer failed, 4 where memory was refused.
    pub fn status(self) -> u8
        ensures { result ≡ status_of self }
    {
        match self {
            ReplayError::Chart(_) | ReplayError::Script(_) => 1,
            ReplayError::Read | ReplayError::Write => 3,
            ReplayError::Memory => 4,
        }
    }
}

impl From<AllocError> for ReplayError {
    ghost from_gives = { λ _ error. error ≡ Memory };

    fn from(_error: AllocError) -> ReplayError {
        ReplayError::Memory
    }
}

impl From<WriteFault> for ReplayError {
    ghost from_gives = { λ _ error. error ≡ WriteVariant };

    fn from(_error: WriteFault) -> ReplayError {
        ReplayError::Write
    }
}

impl From<ScriptError> for ReplayError {
    ghost from_gives = { λ error given. given ≡ of_script error };

    fn from(error: ScriptError) -> ReplayError {
        match error {
            ScriptError::Faulty(line) => ReplayError::Script(line),
            ScriptError::Memory => ReplayError::Memory,
        }
    }
}

impl From<ReadError> for ReplayError {
    ghost from_gives = { λ error given. given ≡ of_read error };

    fn from(error: ReadError) -> ReplayError {
        match error.kind {
            ReadErrorKind::Memory => ReplayError::Memory,
            _ => ReplayError::Chart(ChartError::Read(error)),
        }
    }
}

impl From<LoadError> for ReplayError {
    ghost from_gives = { λ error given. given ≡ of_load error };

    fn from(error: LoadError) -> ReplayError {
        match error {
            LoadError::Memory => ReplayError::Memory,
            _ => ReplayError::Chart(ChartError::Load(error)),
        }
    }
}
