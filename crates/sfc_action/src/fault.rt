//! Control faults.

use sfc_base::ids::ActionNumber;

/// Why a scan can't tell what an action's control block does (2.6.4.5).
#[derive(Clone, Copy, Debug, PartialEq, Eq)]
pub enum ControlFault {
    /// More than one association with a time is active.
    TwoTimed,
    /// The input SD is TRUE while SL is stored.
    SdWhileSl,
    /// The input SL is TRUE while SD is stored.
    SlWhileSd,
}

/// The fault of a scan, and the action whose control block has it.
#[derive(Clone, Copy, Debug, PartialEq, Eq)]
pub struct ActionFault {
    pub action: ActionNumber,
    pub fault: ControlFault,
}
