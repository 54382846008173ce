//! Why a chart has no layout.

use thiserror::Error;

/// Why a chart has no layout.
#[derive(Clone, Copy, Debug, PartialEq, Eq, Error)]
pub enum LayoutError {
    /// This link leads neither from a step to a transition nor the other way.
    #[error("link {0} leads neither from a step to a transition nor the other way")]
    Link(usize),
    /// The drawing would be 2^32 pixels wide or high.
    #[error("the drawing is too large")]
    TooLarge,
    /// Memory was refused.
    #[error("out of memory")]
    OutOfMemory,
}
