//! How a scan of a program ended.

/// How a scan of a program instance ended.
#[derive(Clone, Copy, Debug, PartialEq, Eq)]
pub enum ScanEnd {
    /// It ran without a fault.
    Ran,
    /// A fault ended it; nothing of it stays.
    Faulted,
    /// It was passed over because of an earlier fault.
    Skipped,
}
