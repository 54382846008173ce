//! One chart: steps, transitions and actions by number, each in text order.

use crate::action::Action;
use crate::association::Association;
use crate::typed::Condition;
use sfc_base::items::Items;
use sfc_base::name::Name;
use sfc_base::references::StepId;

/// A step with its associations, in text order (2.6.2).
#[derive(Debug)]
pub struct Step {
    pub name: Name,
    pub is_initial: bool,
    pub associations: Items<Association>,
}

// By hand, so that a caller that drops one proves one call.
impl Drop for Step {
    fn drop(self) {
        let Step {
            name: _,
            is_initial: _,
            associations: _,
        } = self;
    }
}

/// A transition from its preceding to its following steps, with its condition (2.6.3). A lower priority number goes
/// first.
#[derive(Debug)]
pub struct Transition {
    pub name: Option<Name>,
    pub priority: Option<u32>,
    pub preceding: Items<StepId>,
    pub following: Items<StepId>,
    pub condition: Condition,
}

// By hand, so that a caller that drops one proves one call.
impl Drop for Transition {
    fn drop(self) {
        let Transition {
            name: _,
            priority: _,
            preceding: _,
            following: _,
            condition: _,
        } = self;
    }
}

/// All networks of a program type as one chart.
#[derive(Debug)]
pub struct Chart {
    pub steps: Items<Step>,
    pub transitions: Items<Transition>,
    pub actions: Items<Action>,
}

// By hand, so that a caller that drops one proves one call.
impl Drop for Chart {
    fn drop(self) {
        let Chart {
            steps: _,
            transitions: _,
            actions: _,
        } = self;
    }
}
