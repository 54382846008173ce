//! The actions of a chart in the order of their numbers.

use crate::action_key::ActionKey;
use indexmap::IndexSet;
use sfc_base::limits::ASSOCIATIONS;
use sfc_plant::association::Target;
use std::marker::Model;

/// The actions of a chart: the Boolean ones in the order of their first association, and then the declared ones in the
/// order of their declaration (2.6.4.1). Clauses see the list of them.
#[derive(Debug)]
pub struct ActionList {
    booleans: IndexSet<ActionKey>,
    declared: usize,
    targets: Vec<Target>,
}

// By hand, so that a caller that drops one proves one call.
impl Drop for ActionList {
    fn drop(self) {
        let ActionList {
            booleans: _,
            declared: _,
            targets: _,
        } = self;
    }
}

impl Model for ActionList {
    ghost use Rattle.std.specs.Prelude.{List};
    ghost use Rattle.sfc_plant.specs.declared.association.Target.{Target};
    ghost use Rattle.sfc_tables.specs.Private.Listing.{IsListed};

    ghost Value = { List Target };

    ghost view = { λ list. list.targets.items };

    ghost invariant = { λ list. IsListed list.booleans.keys list.declared list.targets.items };
}

ghost use Rattle.std.specs.Prelude.{◌≡◌, ◌<◌, ◌≤◌, ◌+◌, ◌^◌, ◌++◌, ◌∷◌, [], map, length, IfOk, OnOk};
ghost use Rattle.sfc_tables.specs.Actions.{booleans_of, associations_in, declared_actions, number_of};
ghost use Rattle.sfc_tables.specs.Private.Listing.{with_booleans};

use sfc_base::ids::{ActionId, ActionNumber};
use sfc_base::references::Variable;
use sfc_plant::association::Association;
use sfc_plant::chart::{Chart, Step};
use std::alloc::{AllocError, Global};

// Notes a variable that is an action.
fn note(booleans: &mut IndexSet<ActionKey>, variable: Variable) -> Result<(), AllocError>
    ensures { OnOk result (booleans.new.keys ≡ with_booleans booleans.old.keys (variable ∷ [])) }
{
    match booleans.insert(ActionKey::new(variable)) {
        Ok(_) => Ok(()),
        Err(_) => Err(AllocError),
    }
}

// Notes the variables of these associations that are actions.
fn note_all(
    booleans: &mut IndexSet<ActionKey>,
    associations: &[Association],
) -> Result<(), AllocError>
    ensures { OnOk result (booleans.new.keys ≡ with_booleans booleans.old.keys (booleans_of associations.now)) }
{
    for association in associations {
        match association.target {
            Target::Boolean(variable) => note(booleans, variable)?,
            Target::Declared(_) => {}
        }
    }
    Ok(())
}

// The variables of all associations that are actions.
fn boolean_actions(alloc: Global, steps: &[Step]) -> Result<IndexSet<ActionKey>, AllocError>
    ensures { IfOk result (λ booleans. booleans.keys ≡ with_booleans [] (booleans_of (associations_in steps.now))) }
{
    let mut booleans = IndexSet::new(alloc);
    for step in steps {
        note_all(&mut booleans, step.associations.as_slice())?;
    }
    Ok(booleans)
}

// The actions that these variables are.
fn boolean_targets(alloc: Global, booleans: &IndexSet<ActionKey>) -> Result<Vec<Target>, AllocError>
    ensures { IfOk result (λ targets. targets.items ≡ map (λ v. Target.Boolean v) booleans.now.keys) }
{
    let mut targets = Vec::new(alloc);
    for i in 0..booleans.len() {
        let key = booleans.get_index(i).unwrap();
        targets.push(Target::Boolean(key.variable()))?;
    }
    Ok(targets)
}

// Lists the declared actions behind the others.
fn add_declared(targets: &mut Vec<Target>, declared: usize) -> Result<(), AllocError>
    ensures { OnOk result (targets.new.items ≡ targets.old.items ++ declared_actions declared) }
{
    for i in 0..declared {
        targets.push(Target::Declared(ActionId(i)))?;
    }
    Ok(())
}

impl ActionList {
    ghost use Rattle.std.specs.Prelude.{◌≡◌, ◌<◌, ◌≤◌, ◌^◌, ◌-◌, length, sum_by, slice_get, Some, IfOk};
    ghost use Rattle.sfc_tables.specs.Actions.{actions_of, number_of};

    /// The actions of this chart. The one error is that memory was refused.
    pub fn build(alloc: Global, chart: &Chart) -> Result<ActionList, AllocError>
        requires associations { sum_by (λ step. length step.associations) chart.now.steps ≤ ASSOCIATIONS }
        ensures { IfOk result (λ list. list ≡ actions_of chart.now) }
    {
        let booleans = boolean_actions(alloc, chart.steps.as_slice())?;
        let declared = chart.actions.len();
        let mut targets = boolean_targets(alloc, &booleans)?;
        add_declared(&mut targets, declared)?;
        Ok(ActionList {
            booleans,
            declared,
            targets,
        })
    }

    /// The number of actions.
    pub fn len(&self) -> usize
        ensures { result ≡ length self.now }
    {
        self.targets.len()
    }

    /// All of them, by number.
    pub fn as_slice(&self) -> &[Target]
        ensures { result.now ≡ self.now }
    {
        &self.targets
    }

    /// The action of this number.
    pub fn target(&self, action: ActionNumber) -> Target
        requires { action.0 < length self.now }
        ensures { slice_get self.now action.0 ≡ Some result }
    {
        self.targets[action.0]
    }

    /// The number of this action.
    pub fn number(&self, target: Target) -> ActionNumber
        requires { (number_of self.now target).0 < length self.now }
        ensures { result ≡ number_of self.now target }
    {
        match target {
            Target::Boolean(variable) => {
                let place = self
                    .booleans
                    .get_index_of(&ActionKey::new(variable))
                    .unwrap();
                ActionNumber(place)
            }
            Target::Declared(id) => {
                let place = self.booleans.len() + id.0;
                ActionNumber(place)
            }
        }
    }
}
