//! The qualifiers of associations that have a time (2.6.4.4).

/// The qualifiers with a time (2.6.4.4).
#[derive(Clone, Copy, Debug, PartialEq, Eq)]
pub enum TimedQualifier {
    /// L, time limited.
    Limited,
    /// D, time delayed.
    Delayed,
    /// SD, stored and time delayed.
    StoredDelayed,
    /// DS, delayed and stored.
    DelayedStored,
    /// SL, stored and time limited.
    StoredLimited,
}
