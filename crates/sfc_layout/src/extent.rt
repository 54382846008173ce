//! Room beside a line.

/// How far a thing goes to the left and to the right of its line, in pixels.
#[derive(Clone, Copy, Debug, PartialEq, Eq)]
pub struct Extent {
    pub left: u32,
    pub right: u32,
}
