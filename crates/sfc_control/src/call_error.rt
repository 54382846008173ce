//! Why a call is refused.

use sfc_events::refusal::Refusal;

/// Why a seat's call is refused.
#[derive(Clone, Copy, Debug, PartialEq, Eq)]
pub enum CallError {
    /// The book refused the command.
    Refused(Refusal),
    /// The seat's last receipt does not stand in the history.
    AuditMismatch,
}
