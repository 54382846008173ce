//! What is drawn beside the boxes of nodes. All in pixels from the left and the top of a sheet.

/// How a link is drawn. It begins below its source at `top`.
#[derive(Clone, Copy, Debug, PartialEq, Eq)]
pub enum Drawing {
    /// A line down to `bottom`: to its target, or to the line above it that joins several.
    Line {
        x: u32,
        top: u32,
        bottom: u32,
    },
    /// A line down to `bottom`, where an arrow head and the name of its target stand.
    Jump {
        x: u32,
        top: u32,
        bottom: u32,
    },
    /// A line down to `bottom`, and from there to the left up to `side`: to the loop that it joins, or where it is the first of
    /// those of a step to the lane of that step, and up there to where loops enter it.
    Loop {
        x: u32,
        top: u32,
        bottom: u32,
        side: u32,
        is_first: bool,
    },
}

/// A line from left to right, single or double: above a node where links to it join, or below one from which several hang.
#[derive(Clone, Copy, Debug, PartialEq, Eq)]
pub struct Bar {
    pub node: usize,
    pub is_double: bool,
    pub left: u32,
    pub right: u32,
    pub y: u32,
}

/// A line from top to bottom that belongs to a node: from the bar above it, or to the bar below it.
#[derive(Clone, Copy, Debug, PartialEq, Eq)]
pub struct Stem {
    pub node: usize,
    pub x: u32,
    pub top: u32,
    pub bottom: u32,
}

/// Where the arrow stands by which the links without a line come to a transition, at the end of its double line.
#[derive(Clone, Copy, Debug, PartialEq, Eq)]
pub struct Stub {
    pub node: usize,
    pub x: u32,
}

/// A sheet: where it stands in the drawing of the chart, and its size.
#[derive(Clone, Copy, Debug, PartialEq, Eq)]
pub struct Sheet {
    pub left: u32,
    pub top: u32,
    pub width: u32,
    pub height: u32,
}
