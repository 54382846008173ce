//! What a scan of action control knows of the associations.

use crate::step_inputs::StepInputs;

/// The time of each association, by number, and what those of each step give as inputs.
#[derive(Clone, Copy)]
pub struct Associations<'a> {
    pub times: &'a [i64],
    pub step_inputs: &'a StepInputs,
}
