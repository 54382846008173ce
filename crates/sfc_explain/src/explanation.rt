//! What is told of a refusal or a fault.

use crate::topic::Topic;

/// Whether a message tells a line of the chart, or of the script.
#[derive(Clone, Copy, PartialEq, Eq)]
pub enum LineMark {
    /// It tells no line.
    No,
    /// It tells the line of the faulty place.
    Yes,
    /// It tells line 1, wherever the fault is.
    First,
}

/// What an example is written in.
#[derive(Clone, Copy, PartialEq, Eq)]
pub enum ExampleKind {
    /// In a chart.
    Chart,
    /// In a script.
    Script,
    /// On the command line.
    Shell,
    /// In code over the crates, where no chart and no script leads to it.
    Code,
}

/// What is told of a refusal or a fault. All texts but the example are one line, without its end.
#[derive(Clone, Copy)]
pub struct Explanation {
    /// What it is.
    pub topic: Topic,
    /// What tells it: the reader, the loader, a command, ..
    pub from: &'static str,
    /// Whether a line is told.
    pub line: LineMark,
    /// What it means.
    pub meaning: &'static str,
    /// What usually leads to it.
    pub cause: &'static str,
    /// What the example is written in.
    pub kind: ExampleKind,
    /// What leads to it, in lines of four blanks and a text; each has its end.
    pub example: &'static str,
}
