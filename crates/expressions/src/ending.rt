//! Why a text has no value or effect.

use sfc_check::placed_error::PlacedTypeError;
use sfc_check::type_error::TypeError;
use sfc_events::read_error::{ReadError, ReadErrorKind};
use sfc_expr::fault::Fault;
use std::alloc::AllocError;
use std::fmt;

/// What keeps a text from having a value or its whole effect.
#[derive(Clone, Copy, Debug, PartialEq, Eq)]
pub enum Ending {
    /// It isn't read.
    NotRead(ReadErrorKind),
    /// A name is not found.
    Unknown,
    /// A type is not the wanted one, or an operator is not for it.
    WrongType,
    /// An integer lies outside the range of the wanted type.
    LiteralRange,
    /// A name with a dot can't be assigned to.
    NotAssignable,
    /// An integer was divided by zero.
    DivZero,
    /// A result lies outside the range of its type.
    Range,
}

impl From<ReadError> for Ending {
    fn from(error: ReadError) -> Ending {
        Ending::NotRead(error.kind)
    }
}

impl From<PlacedTypeError> for Ending {
    fn from(error: PlacedTypeError) -> Ending {
        match error.error() {
            TypeError::Unknown => Ending::Unknown,
            TypeError::WrongType => Ending::WrongType,
            TypeError::LiteralRange => Ending::LiteralRange,
            TypeError::NotAssignable => Ending::NotAssignable,
            TypeError::Memory => Ending::NotRead(ReadErrorKind::Memory),
        }
    }
}

impl From<Fault> for Ending {
    fn from(fault: Fault) -> Ending {
        match fault {
            Fault::DivZero => Ending::DivZero,
            Fault::Range => Ending::Range,
        }
    }
}

impl From<AllocError> for Ending {
    fn from(_error: AllocError) -> Ending {
        Ending::NotRead(ReadErrorKind::Memory)
    }
}

impl fmt::Display for Ending {
    fn fmt<W: fmt::Write>(&self, f: &mut fmt::Formatter<W>) -> fmt::Result {
        match self {
            Ending::NotRead(kind) => write!(f, "refused {} {}", kind.number(), kind.name()),
            Ending::Unknown => f.write_str("refused 9 Unknown"),
            Ending::WrongType => f.write_str("refused 10 WrongType"),
            Ending::LiteralRange => f.write_str("refused 11 LiteralRange"),
            Ending::NotAssignable => f.write_str("refused 12 NotAssignable"),
            Ending::DivZero => f.write_str("fault DivZero"),
            Ending::Range => f.write_str("fault Range"),
        }
    }
}
