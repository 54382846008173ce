//! Why a call of an image is refused.

use thiserror::Error;

/// Why a call is refused.
#[derive(Clone, Copy, Debug, PartialEq, Eq, Error)]
pub enum ImageError {
    /// There is no such variable.
    #[error("no such variable")]
    UnknownVar,
    /// The value is not of the variable's type.
    #[error("the value is not of the variable's type")]
    ValueType,
    /// The variable is not forced.
    #[error("the variable is not forced")]
    NotForced,
}
