//! The links of all transitions to steps, in one flat list.

ghost use Rattle.std.specs.Prelude.{◌≡◌, ◌+◌, ◌++◌, length, IfOk, OnOk};

use sfc_base::ids::TransitionId;
use sfc_base::references::StepId;
use sfc_plant::chart::Transition;
use std::alloc::{AllocError, Global};
use std::marker::Model;

/// Where a transition's links lie: preceding steps from `start` up to `middle`, following ones up to `end`.
#[derive(Clone, Copy, Debug, PartialEq, Eq)]
pub struct Range {
    pub start: usize,
    pub middle: usize,
    pub end: usize,
}

/// The steps before and after each transition. Clauses see the two sides of each.
#[derive(Debug)]
pub struct Links {
    steps: Vec<StepId>,
    ranges: Vec<Range>,
}

// By hand, so that a caller that drops one proves one call.
impl Drop for Links {
    fn drop(self) {
        let Links {
            steps: _,
            ranges: _,
        } = self;
    }
}

impl Model for Links {
    ghost use Rattle.std.specs.Prelude.{List, length, All, map};
    ghost use Rattle.sfc_tables.specs.Tables.{Sides};
    ghost use Rattle.sfc_tables.specs.Private.Parts.{sides_in, IsRange};

    ghost Value = { List Sides };

    ghost view = { λ links. map (sides_in links.steps.items) links.ranges.items };

    ghost invariant = { λ links. All (IsRange (length links.steps.items)) links.ranges.items };
}

// Appends the links of a transition, and tells where they lie.
fn append(steps: &mut Vec<StepId>, transition: &Transition) -> Result<Range, AllocError>
    ensures steps { OnOk result (steps.new.items
        ≡ (steps.old.items ++ transition.now.preceding) ++ transition.now.following) }
    ensures range { IfOk result (λ range. range ≡ record {
      start = length steps.old.items;
      middle = length steps.old.items + length transition.now.preceding;
      end = length steps.old.items + length transition.now.preceding + length transition.now.following;
    }) }
{
    let start = steps.len();
    steps.extend_from_slice(transition.preceding.as_slice())?;
    let middle = steps.len();
    steps.extend_from_slice(transition.following.as_slice())?;
    let end = steps.len();
    Ok(Range { start, middle, end })
}

impl Links {
    ghost use Rattle.std.specs.Prelude.{◌≡◌, ◌<◌, length, map, IfOk};
    ghost use Rattle.sfc_tables.specs.Tables.{sides_of, sides_at};

    /// The links of these transitions. The one error is that memory was refused.
    pub fn build(alloc: Global, transitions: &[Transition]) -> Result<Links, AllocError>
        ensures { IfOk result (λ links. links ≡ map sides_of transitions.now) }
    {
        let mut steps = Vec::new(alloc);
        let mut ranges = Vec::new(alloc);
        for transition in transitions {
            let range = append(&mut steps, transition)?;
            ranges.push(range)?;
        }
        Ok(Links { steps, ranges })
    }

    /// The number of transitions.
    pub fn len(&self) -> usize
        ensures { result ≡ length self.now }
    {
        self.ranges.len()
    }

    /// The steps before this transition.
    pub fn preceding(&self, transition: TransitionId) -> &[StepId]
        requires { transition.0 < length self.now }
        ensures { result.now ≡ (sides_at self.now transition).preceding }
    {
        let range = self.ranges[transition.0 as usize];
        &self.steps[range.start..range.middle]
    }

    /// The steps after this transition.
    pub fn following(&self, transition: TransitionId) -> &[StepId]
        requires { transition.0 < length self.now }
        ensures { result.now ≡ (sides_at self.now transition).following }
    {
        let range = self.ranges[transition.0 as usize];
        &self.steps[range.middle..range.end]
    }
}
