//! The associations of steps with actions.

use crate::action_list::ActionList;
use crate::step_action::StepAction;
use sfc_base::limits::{ASSOCIATIONS, STEPS};
use std::marker::Model;

/// The associations of a chart in text order, and in the order of their actions. Clauses see what it shows.
#[derive(Debug)]
pub struct ActionBlocks {
    steps: usize,
    actions: ActionList,
    associations: Vec<StepAction>,
    step_starts: Vec<usize>,
    by_action: Vec<StepAction>,
    action_starts: Vec<usize>,
}

// By hand, so that a caller that drops one proves one call.
impl Drop for ActionBlocks {
    fn drop(self) {
        let ActionBlocks {
            steps: _,
            actions: _,
            associations: _,
            step_starts: _,
            by_action: _,
            action_starts: _,
        } = self;
    }
}

impl Model for ActionBlocks {
    ghost use Rattle.sfc_tables.specs.Private.Blocks.{Blocks, blocks_of, IsGrouped};

    ghost Value = { Blocks };

    ghost view = { λ blocks. blocks_of blocks.steps blocks.actions blocks.associations.items };

    ghost invariant = { λ blocks. IsGrouped (blocks_of blocks.steps blocks.actions blocks.associations.items)
        blocks.step_starts.items blocks.by_action.items blocks.action_starts.items };
}

ghost use Rattle.std.specs.Prelude.{◌≡◌, ◌<◌, ◌≤◌, ◌+◌, ◌++◌, All, length, sum_by, IfOk, OnOk};
ghost use Rattle.sfc_tables.specs.Private.Listing.{IsListedIn};
ghost use Rattle.sfc_tables.specs.Tables.{at_step, in_text, numbered};

use crate::groups;
use sfc_base::ids::{ActionNumber, AssociationNumber};
use sfc_base::references::StepId;
use sfc_plant::association::Association;
use sfc_plant::chart::{Chart, Step};
use std::alloc::{AllocError, Global};

// Appends the associations of a step.
fn add_step(
    associations: &mut Vec<StepAction>,
    step: StepId,
    block: &[Association],
    actions: &ActionList,
) -> Result<(), AllocError>
    requires few { length associations.old.items + length block.now ≤ ASSOCIATIONS }
    requires targets { All (IsListedIn actions.now) block.now }
    ensures { OnOk result (associations.new.items
        ≡ associations.old.items ++ numbered actions.now (length associations.old.items) (at_step step block.now)) }
{
    for association in block {
        associations.push(StepAction {
            number: AssociationNumber(associations.len() as u16),
            step,
            action: actions.number(association.target),
            qualifier: association.qualifier,
        })?;
    }
    Ok(())
}

// The associations of these steps, with the first step's first.
fn list_associations(
    alloc: Global,
    steps: &[Step],
    actions: &ActionList,
) -> Result<Vec<StepAction>, AllocError>
    requires few_steps { length steps.now ≤ STEPS }
    requires few { sum_by (λ step. length step.associations) steps.now ≤ ASSOCIATIONS }
    requires targets { All (λ step. All (IsListedIn actions.now) step.associations) steps.now }
    ensures { IfOk result (λ associations. associations.items ≡ numbered actions.now 0 (in_text 0 steps.now)) }
{
    let mut associations = Vec::new(alloc);
    for (s, step) in steps.iter().enumerate() {
        add_step(
            &mut associations,
            StepId(s as u16),
            step.associations.as_slice(),
            actions,
        )?;
    }
    Ok(associations)
}

impl ActionBlocks {
    ghost use Rattle.std.specs.Prelude.{◌≡◌, ◌<◌, ◌≤◌, ◌==◌, ◌-◌, filter, length, IfOk};
    ghost use Rattle.sfc_tables.specs.Actions.{actions_of};
    ghost use Rattle.sfc_plant.specs.Chart.{Counts, IsChart};
    ghost use Rattle.sfc_tables.specs.Tables.{associations_of};

    /// The associations of this chart. The one error is that memory was refused.
    pub fn build(alloc: Global, chart: &Chart) -> Result<ActionBlocks, AllocError>
        requires chart { (counts : Counts) × IsChart counts chart.now }
        ensures { IfOk result (λ blocks. blocks ≡ record {
          steps = length chart.now.steps;
          actions = actions_of chart.now;
          associations = associations_of chart.now;
        }) }
    {
        let steps = chart.steps.len();
        let actions = ActionList::build(alloc, chart)?;
        let associations = list_associations(alloc, chart.steps.as_slice(), &actions)?;
        let step_starts = groups::starts(alloc, &groups::steps_of(alloc, &associations)?, steps)?;
        let by_action = groups::by_action(alloc, &associations)?;
        let action_starts = groups::starts(
            alloc,
            &groups::actions_of(alloc, &by_action)?,
            actions.len(),
        )?;
        Ok(ActionBlocks {
            steps,
            actions,
            associations,
            step_starts,
            by_action,
            action_starts,
        })
    }

    /// The actions.
    pub fn actions(&self) -> &ActionList
        ensures { result.now ≡ self.now.actions }
    {
        &self.actions
    }

    /// The associations in text order.
    pub fn associations(&self) -> &[StepAction]
        ensures { result.now ≡ self.now.associations }
    {
        &self.associations
    }

    /// The associations of this step, in text order.
    pub fn of_step(&self, step: StepId) -> &[StepAction]
        requires { step.0 < self.now.steps }
        ensures { result.now ≡ filter (λ association. association.step.0 == step.0) self.now.associations }
    {
        let k = step.0 as usize;
        &self.associations[self.step_starts[k]..self.step_starts[k + 1]]
    }

    /// The associations of this action, in text order.
    pub fn of_action(&self, action: ActionNumber) -> &[StepAction]
        requires { action.0 < length self.now.actions }
        ensures { result.now ≡ filter (λ association. association.action.0 == action.0) self.now.associations }
    {
        let k = action.0;
        &self.by_action[self.action_starts[k]..self.action_starts[k + 1]]
    }
}
