//! Why an evaluation ended without a value.

/// What keeps an expression from having a value.
#[derive(Clone, Copy, Debug, PartialEq, Eq)]
pub enum Fault {
    /// An integer was divided by zero.
    DivZero,
    /// A result lies outside the range of its type.
    Range,
}
