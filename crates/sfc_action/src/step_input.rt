//! What the associations of one step give as inputs.

use crate::plain_words::PlainWords;
use sfc_plant::association::Qualifier;
use sfc_tables::step_action::StepAction;
use std::alloc::{AllocError, Global};

/// Inputs without a time of the 64 actions of the word of this number.
#[derive(Clone, Copy)]
pub struct PlainRun {
    pub number: usize,
    pub plain: PlainWords,
}

/// What the associations of a step give as inputs: those without a time together, word by word, and those with a time one by one.
pub struct StepInput {
    pub plain: Vec<PlainRun>,
    pub timed: Vec<StepAction>,
}

// By hand, so that a caller that drops one proves one call.
impl Drop for StepInput {
    fn drop(self) {
        let StepInput { plain: _, timed: _ } = self;
    }
}

ghost use Rattle.std.specs.Prelude.{◌≡◌, ◌==◌, ◌<◌, ◌≤◌, ◌+◌, ◌++◌, ◌∷◌, [], ℕ, List, All, cond, false, length, IfOk, OnOk};
ghost use Rattle.sfc_tables.specs.declared.step_action.StepAction.{StepAction};
ghost use Rattle.sfc_action.specs.ActionControl.{is_timed};
ghost use Rattle.sfc_action.specs.Private.Marks.{with_input};
ghost use Rattle.sfc_action.specs.Private.Rows.{InputRow};
ghost use Rattle.sfc_action.specs.Private.StepGiving.{all_joined, given_of, IsRunOf, IsGivenBy};

// One input without a time more, beside the last one where that is in the same word.
fn add_plain(
    runs: &mut Vec<PlainRun>,
    qualifier: Qualifier,
    action: usize,
) -> Result<(), AllocError>
    requires plain { is_timed qualifier ≡ false }
    ensures rows { OnOk result ((a : ℕ) (r : InputRow) → all_joined a runs.new.items r ≡ cond (a == action)
        (with_input qualifier (all_joined a runs.old.items r)) (all_joined a runs.old.items r)) }
    ensures within { OnOk result ((n : ℕ) → action < n → All (IsRunOf n) runs.old.items → All (IsRunOf n) runs.new.items) }
    ensures few { OnOk result (length runs.new.items ≤ length runs.old.items + 1) }
{
    let number = action / 64;
    let count = runs.len();
    if count > 0 && runs[count - 1].number == number {
        runs[count - 1].plain.mark(qualifier, action);
        return Ok(());
    }
    let mut plain = PlainWords::none();
    plain.mark(qualifier, action);
    runs.push(PlainRun { number, plain })?;
    Ok(())
}

impl StepInput {
    // One association more.
    fn add(&mut self, association: &StepAction) -> Result<(), AllocError>
        ensures { OnOk result ((n : ℕ) (associations : List StepAction) → association.now.action.0 < n →
            IsGivenBy n associations (given_of self.old) → IsGivenBy n (associations ++ association.now ∷ []) (given_of self.new)) }
    {
        if let Qualifier::Timed(_, _) = association.qualifier {
            self.timed.push(*association)?;
            return Ok(());
        }
        add_plain(&mut self.plain, association.qualifier, association.action.0)?;
        Ok(())
    }

    /// What these associations give. The one error is that memory was refused.
    pub fn new(alloc: Global, associations: &[StepAction]) -> Result<StepInput, AllocError>
        ensures { IfOk result (λ step_input. (n : ℕ) → All (λ x. x.action.0 < n) associations.now →
            IsGivenBy n associations.now (given_of step_input)) }
    {
        let mut step_input = StepInput {
            plain: Vec::new(alloc),
            timed: Vec::new(alloc),
        };
        for association in associations {
            step_input.add(association)?;
        }
        Ok(step_input)
    }
}
