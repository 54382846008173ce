//! Where the fault of a scan is.

use sfc_base::ids::{ActionId, ActionNumber, TransitionId};

/// Where the fault that ended a scan is, in the chart of the program.
#[derive(Clone, Copy, Debug, PartialEq, Eq)]
pub enum FaultPlace {
    /// In the condition of this transition (2.6.3).
    Transition(TransitionId),
    /// In the control block of this action (2.6.4.5).
    Action(ActionNumber),
    /// In a statement of the body of this declared action (2.6.4.1). The statements of a body are counted from 0; what stands in an
    /// `IF` is part of it.
    Statement { action: ActionId, statement: usize },
}
