//! An association of a step with an action, by numbers.

use sfc_base::ids::{ActionNumber, AssociationNumber};
use sfc_base::references::StepId;
use sfc_plant::association::Qualifier;

/// That a step is associated with an action by a qualifier (2.6.4.3).
#[derive(Clone, Copy, Debug, PartialEq, Eq)]
pub struct StepAction {
    pub number: AssociationNumber,
    pub step: StepId,
    pub action: ActionNumber,
    pub qualifier: Qualifier,
}
