//! What a scan may have changed.

/// What a scan may have changed besides which transitions it cleared, which steps it activated and which actions it executed.
#[derive(Clone, Copy)]
pub enum Moved {
    /// Nothing else.
    Nothing,
    /// Action control, but no step.
    Controls,
    /// Action control, and the steps that it left and activated.
    Steps,
    /// All.
    All,
}
