//! The mode of a debugger.

/// Whether the resource runs (our choice).
#[derive(Clone, Copy, Debug, PartialEq, Eq)]
pub enum Mode {
    /// It runs: raw time counts. This is so at first.
    Running,
    /// It is halted: time stands still, and tasks are scanned one at a time.
    Stopped,
    /// Nothing is accepted any more.
    Ended,
}
