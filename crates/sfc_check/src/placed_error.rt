//! Faults of a text with the bytes that are at fault. Contracts see the fault alone.

use crate::detail::{Detail, detail_of, place_of};
use crate::scope::Scope;
use crate::type_error::TypeError;
use sfc_base::var_type::VarType;
use sfc_events::load_error::LoadError;
use sfc_text::expression::Expression;
use sfc_tokens::span::{NOWHERE, Span};
use std::alloc::{AllocError, AllocFailed};
use std::marker::Model;

/// A type fault, the bytes that are at fault, and what is told of it beside; want of memory has neither.
#[derive(Debug, Drop)]
pub struct PlacedTypeError {
    error: TypeError,
    span: Span,
    detail: Detail,
}

impl Model for PlacedTypeError {
    ghost use Rattle.sfc_check.specs.declared.type_error.TypeError.{TypeError};

    ghost Value = { TypeError };

    ghost view = { λ fault. fault.error };
}

/// A fault that loading finds, the bytes that are at fault, and what is told of it beside; want of memory has neither.
#[derive(Debug, Drop)]
pub struct PlacedLoadError {
    error: LoadError,
    span: Span,
    detail: Detail,
}

impl Model for PlacedLoadError {
    ghost use Rattle.sfc_events.specs.declared.load_error.LoadError.{LoadError};

    ghost Value = { LoadError };

    ghost view = { λ fault. fault.error };
}

ghost use Rattle.std.specs.Prelude.{◌≡◌};
ghost use Rattle.sfc_check.specs.declared.type_error.TypeError.TheVariants as type_error;
ghost use Rattle.sfc_events.specs.declared.load_error.LoadError.TheVariants as load_error;
ghost use Rattle.sfc_check.specs.TypeFaults.{of_type_error};

impl PlacedTypeError {
    /// The fault at these bytes, of which no more is told.
    pub fn new(error: TypeError, span: Span) -> PlacedTypeError
        ensures { result ≡ error }
    {
        PlacedTypeError::told(error, span, Detail::Nothing)
    }

    /// The fault at these bytes, of which this is told.
    pub fn told(error: TypeError, span: Span, detail: Detail) -> PlacedTypeError
        ensures { result ≡ error }
    {
        PlacedTypeError {
            error,
            span,
            detail,
        }
    }

    /// The fault.
    pub fn error(&self) -> TypeError
        ensures { result ≡ self.now }
    {
        self.error
    }

    /// The bytes that are at fault.
    pub fn span(&self) -> Span {
        self.span
    }

    /// What is told of it beside.
    pub fn detail(&self) -> Detail {
        self.detail
    }
}

impl PlacedLoadError {
    /// The fault at these bytes, of which no more is told.
    pub fn new(error: LoadError, span: Span) -> PlacedLoadError
        ensures { result ≡ error }
    {
        PlacedLoadError::told(error, span, Detail::Nothing)
    }

    /// The fault at these bytes, of which this is told.
    pub fn told(error: LoadError, span: Span, detail: Detail) -> PlacedLoadError
        ensures { result ≡ error }
    {
        PlacedLoadError {
            error,
            span,
            detail,
        }
    }

    /// The fault.
    pub fn error(&self) -> LoadError
        ensures { result ≡ self.now }
    {
        self.error
    }

    /// The bytes that are at fault.
    pub fn span(&self) -> Span {
        self.span
    }

    /// What is told of it beside.
    pub fn detail(&self) -> Detail {
        self.detail
    }

    // The same fault; at these bytes where it has none.
    fn within(self, span: Span) -> PlacedLoadError
        ensures { result ≡ self }
    {
        if self.span == NOWHERE {
            return PlacedLoadError::told(self.error, span, self.detail);
        }
        self
    }
}

/// What was checked of an expression itself, apart from its operands, or its type fault there.
pub(crate) fn typed_at<T, S: Scope>(
    checked: Result<T, TypeError>,
    expression: &Expression,
    scope: &S,
    wanted: VarType,
) -> Result<T, PlacedTypeError>
    ensures { result ≡ checked }
{
    match checked {
        Ok(value) => Ok(value),
        Err(error) => {
            let detail = detail_of(expression, scope, wanted);
            Err(PlacedTypeError::told(error, place_of(expression), detail))
        }
    }
}

/// What was checked, or its type fault at these bytes, of which no more is told.
pub fn checked_at<T>(checked: Result<T, TypeError>, span: Span) -> Result<T, PlacedTypeError>
    ensures { result ≡ checked }
{
    match checked {
        Ok(value) => Ok(value),
        Err(error) => Err(PlacedTypeError::new(error, span)),
    }
}

/// What was loaded, or its fault at these bytes.
pub fn loaded_at<T>(loaded: Result<T, LoadError>, span: Span) -> Result<T, PlacedLoadError>
    ensures { result ≡ loaded }
{
    match loaded {
        Ok(value) => Ok(value),
        Err(error) => Err(PlacedLoadError::new(error, span)),
    }
}

/// What was loaded, or its fault, which is at these bytes where it has none.
pub fn loaded_within<T>(
    loaded: Result<T, PlacedLoadError>,
    span: Span,
) -> Result<T, PlacedLoadError>
    ensures { result ≡ loaded }
{
    match loaded {
        Ok(value) => Ok(value),
        Err(fault) => Err(fault.within(span)),
    }
}

impl From<AllocError> for PlacedTypeError {
    ghost from_gives = { λ _ fault. fault ≡ type_error.Memory };

    fn from(_error: AllocError) -> PlacedTypeError {
        PlacedTypeError::new(TypeError::Memory, NOWHERE)
    }
}

impl<T: Drop> From<AllocFailed<T>> for PlacedTypeError {
    ghost from_gives = { λ _ fault. fault ≡ type_error.Memory };

    fn from(_error: AllocFailed<T>) -> PlacedTypeError {
        PlacedTypeError::new(TypeError::Memory, NOWHERE)
    }
}

impl From<AllocError> for PlacedLoadError {
    ghost from_gives = { λ _ fault. fault ≡ load_error.Memory };

    fn from(_error: AllocError) -> PlacedLoadError {
        PlacedLoadError::new(LoadError::Memory, NOWHERE)
    }
}

impl<T: Drop> From<AllocFailed<T>> for PlacedLoadError {
    ghost from_gives = { λ _ fault. fault ≡ load_error.Memory };

    fn from(_error: AllocFailed<T>) -> PlacedLoadError {
        PlacedLoadError::new(LoadError::Memory, NOWHERE)
    }
}

/// The refusal that a type fault is, at the same bytes.
impl From<PlacedTypeError> for PlacedLoadError {
    ghost from_gives = { λ fault refused. refused ≡ of_type_error fault };

    fn from(fault: PlacedTypeError) -> PlacedLoadError {
        PlacedLoadError::told(LoadError::from(fault.error()), fault.span(), fault.detail())
    }
}
