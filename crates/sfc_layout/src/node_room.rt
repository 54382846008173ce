//! What room a node takes on its line.

use crate::extent::Extent;

/// The room of a node on its line.
#[derive(Clone, Copy)]
pub struct NodeRoom {
    pub x: u32,
    /// How far its box goes to the left and to the right.
    pub own: Extent,
    /// How far all that belongs to it goes to the right.
    pub right: u32,
    /// The height of its box.
    pub height: u32,
    /// What its box has above it at least.
    pub gap: u32,
}
