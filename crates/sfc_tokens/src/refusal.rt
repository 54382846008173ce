//! Refusals of a text, with the bytes that are refused.

ghost use Rattle.std.specs.Prelude.{◌≡◌};
ghost use Rattle.sfc_events.specs.ReadErrors.{out_of_memory as no_memory};

use crate::lines::line_at;
use crate::placed::Placed;
use crate::span::{NOWHERE, Span};
use sfc_events::read_error::{OUT_OF_MEMORY, ReadError, ReadErrorKind};
use std::alloc::{AllocError, AllocFailed};

/// A refusal of these bytes of a text, with the line of the first of them.
pub fn refused(text: &[u8], kind: ReadErrorKind, span: Span) -> Placed<ReadError>
    ensures { result.kind ≡ kind }
{
    let line = line_at(text, span.from);
    Placed::new(ReadError { kind, line }, span)
}

/// Want of memory, which has line 1 and no bytes.
pub fn out_of_memory() -> Placed<ReadError>
    ensures { result ≡ no_memory }
{
    Placed::new(OUT_OF_MEMORY, NOWHERE)
}

impl From<AllocError> for Placed<ReadError> {
    ghost from_gives = { λ _ error. error ≡ no_memory };

    fn from(_error: AllocError) -> Placed<ReadError> {
        out_of_memory()
    }
}

impl<T: Drop> From<AllocFailed<T>> for Placed<ReadError> {
    ghost from_gives = { λ _ error. error ≡ no_memory };

    fn from(_error: AllocFailed<T>) -> Placed<ReadError> {
        out_of_memory()
    }
}
