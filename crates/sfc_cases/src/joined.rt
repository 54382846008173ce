//! Conditions of program instances, joined.

use sfc_base::items::Items;
use sfc_debug::break_condition::BreakCondition;

/// What joins a part of a condition to those before it. AND binds closer than OR.
#[derive(Clone, Copy, Debug, PartialEq, Eq)]
pub enum Joint {
    And,
    Or,
}

/// A part of a condition: an expression of one program instance.
pub struct Part {
    /// What joins it to the parts before it; of the first part it is `Or`.
    pub joint: Joint,
    pub condition: BreakCondition,
}

// By hand, so that a caller that drops one proves one call.
impl Drop for Part {
    fn drop(self) {
        let Part {
            joint: _,
            condition: _,
        } = self;
    }
}

/// A condition of a test.
pub struct Condition {
    /// Its parts, the first first.
    pub parts: Items<Part>,
}

// By hand, so that a caller that drops one proves one call.
impl Drop for Condition {
    fn drop(self) {
        let Condition { parts: _ } = self;
    }
}
