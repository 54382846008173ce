//! Why a text was refused.

ghost use Rattle.std.specs.Prelude.{◌≡◌};
ghost use Rattle.sfc_events.specs.ReadErrors.{number_of, name_of};

use std::alloc::{AllocError, AllocFailed};
use std::error::Error;
use std::fmt;

/// What is wrong with a text.
#[derive(Clone, Copy, Debug, PartialEq, Eq)]
pub enum ReadErrorKind {
    /// The text is longer than 1,048,576 bytes.
    TooLong,
    /// A byte over 127 stands outside comments and pragmas.
    NotAscii,
    /// What stands there begins no token, or is none.
    BadToken,
    /// The token can't stand there.
    Syntax,
    /// Parentheses, prefix operators and IF statements are nested too deep.
    TooDeep,
    /// It is no duration, not whole microseconds, or beyond 2^62 of them.
    BadDuration,
    /// It is no integer, or beyond 4,294,967,295.
    BadNumber,
    /// Memory was refused.
    Memory,
}

impl ReadErrorKind {
    /// The number that stands for it in messages.
    pub fn number(self) -> u8
        ensures { result ≡ number_of self }
    {
        match self {
            ReadErrorKind::TooLong => 1,
            ReadErrorKind::NotAscii => 2,
            ReadErrorKind::BadToken => 3,
            ReadErrorKind::Syntax => 4,
            ReadErrorKind::TooDeep => 5,
            ReadErrorKind::BadDuration => 6,
            ReadErrorKind::BadNumber => 7,
            ReadErrorKind::Memory => 8,
        }
    }

    /// The name that stands for it in messages.
    pub fn name(self) -> &'static str
        ensures { result.now ≡ name_of self }
    {
        match self {
            ReadErrorKind::TooLong => "TooLong",
            ReadErrorKind::NotAscii => "NotAscii",
            ReadErrorKind::BadToken => "BadToken",
            ReadErrorKind::Syntax => "Syntax",
            ReadErrorKind::TooDeep => "TooDeep",
            ReadErrorKind::BadDuration => "BadDuration",
            ReadErrorKind::BadNumber => "BadNumber",
            ReadErrorKind::Memory => "Memory",
        }
    }
}

/// Why a text was refused, and the line: one more than the number of LF bytes before the faulty place;
/// 1 where the text is too long or memory was refused.
#[derive(Clone, Copy, Debug, PartialEq, Eq)]
pub struct ReadError {
    pub kind: ReadErrorKind,
    pub line: u32,
}

/// Want of memory, which has line 1.
pub const OUT_OF_MEMORY: ReadError = ReadError {
    kind: ReadErrorKind::Memory,
    line: 1,
};

impl fmt::Display for ReadError {
    ghost use Rattle.std.specs.Prelude.{Some};
    ghost use Rattle.sfc_events.specs.ReadErrors.{error_text};

    ghost output = { λ error. Some (error_text error) };

    fn fmt<W: fmt::Write>(&self, f: &mut fmt::Formatter<W>) -> fmt::Result {
        let number = self.kind.number();
        let name = self.kind.name();
        let line = self.line;
        match self.kind {
            ReadErrorKind::Memory => f.write_str("out of memory"),
            _ => write!(f, "refused {number} {name} line {line}"),
        }
    }
}

impl Error for ReadError {}

impl From<AllocError> for ReadError {
    ghost use Rattle.std.specs.Prelude.{◌≡◌};
    ghost use Rattle.sfc_events.specs.ReadErrors.{out_of_memory};

    ghost from_gives = { λ _ error. error ≡ out_of_memory };

    fn from(_error: AllocError) -> ReadError {
        OUT_OF_MEMORY
    }
}

impl<T: Drop> From<AllocFailed<T>> for ReadError {
    ghost use Rattle.std.specs.Prelude.{◌≡◌};
    ghost use Rattle.sfc_events.specs.ReadErrors.{out_of_memory};

    ghost from_gives = { λ _ error. error ≡ out_of_memory };

    fn from(_error: AllocFailed<T>) -> ReadError {
        OUT_OF_MEMORY
    }
}
