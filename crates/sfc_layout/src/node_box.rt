//! The boxes of nodes.

ghost use Rattle.std.specs.Prelude.{◌↔◌, IsTrue};
ghost use Rattle.sfc_layout.specs.Sizes.{IsOfSize};

use crate::extent::Extent;

/// The box of a node: of a step the box as it is drawn, with 4 pixels more at its left; of a transition its bar with its number,
/// 6 pixels above and below. In pixels from the left and the top of its sheet.
#[derive(Clone, Copy, Debug, PartialEq, Eq)]
pub struct NodeBox {
    pub sheet: usize,
    /// The line of the node: the middle of the box of a step, and of the bar of a transition.
    pub x: u32,
    pub left: u32,
    pub right: u32,
    pub top: u32,
    pub bottom: u32,
}

impl NodeBox {
    /// That of a node without a place.
    pub(crate) const NOWHERE: NodeBox = NodeBox {
        sheet: 0,
        x: 0,
        left: 0,
        right: 0,
        top: 0,
        bottom: 0,
    };

    /// Whether it goes so far to the left and to the right of its line, and is so high.
    pub(crate) fn has_size(&self, own: Extent, height: u32) -> bool
        ensures { IsTrue result ↔ IsOfSize own height self.now }
    {
        self.x.checked_sub(self.left) == Some(own.left)
            && self.right.checked_sub(self.x) == Some(own.right)
            && self.bottom.checked_sub(self.top) == Some(height)
    }
}
