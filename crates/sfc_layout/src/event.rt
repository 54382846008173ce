//! What is drawn, in turn.

/// What is drawn next.
#[derive(Clone, Copy, Debug, PartialEq, Eq)]
pub enum Shown {
    /// A node below its ends.
    Node(usize),
    /// The end of a link, which is a jump.
    Jump,
    /// A loop to a step from its ends.
    Loop(usize),
}

/// What is drawn next, and the ends from which it is reached: so many, from this one on.
#[derive(Clone, Copy)]
pub struct Event {
    pub shown: Shown,
    pub start: usize,
    pub count: usize,
}

/// Where a link comes down; that of a root has none.
#[derive(Clone, Copy)]
pub struct End {
    pub link: Option<usize>,
    pub line: usize,
}

pub const NO_EVENT: Event = Event {
    shown: Shown::Jump,
    start: 0,
    count: 0,
};

pub const NO_END: End = End {
    link: None,
    line: 0,
};
