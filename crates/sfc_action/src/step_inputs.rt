//! What the associations of each step give as inputs.

use crate::step_input::PlainRun;
use sfc_tables::step_action::StepAction;
use std::marker::Model;

// Where the inputs without a time of a step stand, and where its associations with a time: so many from a place on.
#[derive(Clone, Copy)]
struct StepSpan {
    plain_start: usize,
    plain_count: usize,
    timed_start: usize,
    timed_count: usize,
}

/// What the associations of each step give as inputs, by the number of the step: inputs without a time word by word, and associations
/// with a time one by one. It is made from the tables once, so that a scan doesn't go through all associations of its steps. Clauses
/// see what each step gives.
pub struct StepInputs {
    spans: Vec<StepSpan>,
    plain: Vec<PlainRun>,
    timed: Vec<StepAction>,
}

// By hand, so that a caller that drops one proves one call.
impl Drop for StepInputs {
    fn drop(self) {
        let StepInputs {
            spans: _,
            plain: _,
            timed: _,
        } = self;
    }
}

impl Model for StepInputs {
    ghost use Rattle.std.specs.Prelude.{List, All, length};
    ghost use Rattle.sfc_action.specs.Private.StepGiving.{StepGiven, all_at_spans, IsSpanOf};

    ghost Value = { List StepGiven };

    ghost view = { λ i. all_at_spans i.plain.items i.timed.items i.spans.items };

    ghost invariant = { λ i. All (IsSpanOf (length i.plain.items) (length i.timed.items)) i.spans.items };
}

ghost use Rattle.std.specs.Prelude.{◌≡◌, ◌<◌, ◌++◌, ◌∷◌, [], length, slice_index_or, IfOk, OnOk};
ghost use Rattle.sfc_action.specs.Agreement.{AreInputsOf};
ghost use Rattle.sfc_action.specs.Private.StepGiving.{StepGiven, given_of};

use crate::step_input::StepInput;
use sfc_base::references::StepId;
use sfc_tables::tables::Tables;
use std::alloc::{AllocError, Global};

impl StepInputs {
    // One step more.
    fn add(&mut self, step_input: &StepInput) -> Result<(), AllocError>
        ensures { OnOk result (self.new ≡ self.old ++ given_of step_input.now ∷ []) }
    {
        let span = StepSpan {
            plain_start: self.plain.len(),
            plain_count: step_input.plain.len(),
            timed_start: self.timed.len(),
            timed_count: step_input.timed.len(),
        };
        self.plain.extend_from_slice(&step_input.plain)?;
        self.timed.extend_from_slice(&step_input.timed)?;
        self.spans.push(span)?;
        Ok(())
    }

    /// Those of a chart with these tables. The one error is that memory was refused.
    pub fn new(alloc: Global, tables: &Tables) -> Result<StepInputs, AllocError>
        ensures { IfOk result (λ step_inputs. AreInputsOf tables.now step_inputs) }
    {
        let mut step_inputs = StepInputs {
            spans: Vec::new(alloc),
            plain: Vec::new(alloc),
            timed: Vec::new(alloc),
        };
        for s in 0..tables.steps() {
            let step_input = StepInput::new(alloc, tables.of_step(StepId(s as u16)))?;
            step_inputs.add(&step_input)?;
        }
        Ok(step_inputs)
    }

    /// The inputs without a time that this step gives, word by word.
    pub(crate) fn plain(&self, step: usize) -> &[PlainRun]
        requires { step < length self.now }
        ensures { (d : StepGiven) → result.now ≡ (slice_index_or self.now step d).plain }
    {
        let span = self.spans[step];
        &self.plain[span.plain_start..span.plain_start + span.plain_count]
    }

    /// The associations of this step with a time.
    pub(crate) fn timed(&self, step: usize) -> &[StepAction]
        requires { step < length self.now }
        ensures { (d : StepGiven) → result.now ≡ (slice_index_or self.now step d).timed }
    {
        let span = self.spans[step];
        &self.timed[span.timed_start..span.timed_start + span.timed_count]
    }
}
