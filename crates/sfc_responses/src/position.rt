//! Places in texts, as the protocol has them.

/// A line and a column, both counted from 0. Columns are UTF-16.
#[derive(Clone, Copy, Debug, PartialEq, Eq)]
pub struct Position {
    pub line: usize,
    pub character: usize,
}

/// What stands between two places.
#[derive(Clone, Copy, Debug, PartialEq, Eq)]
pub struct Range {
    pub from: Position,
    pub to: Position,
}
