//! Simultaneous sequences that nothing joins (2.6.5).

use crate::budget::Budget;
use crate::finding::Findings;
use crate::kind::Kind;
use crate::view::View;
use sfc_base::ids::TransitionId;
use sfc_base::references::StepId;
use sfc_flags::flags::Flags;
use sfc_outline::item::Item;
use sfc_tables::tables::Tables;
use std::alloc::{AllocError, Global};

// Of each step the transitions that it precedes.
fn behind_steps(alloc: Global, tables: &Tables) -> Result<Vec<Vec<TransitionId>>, AllocError> {
    let mut behind: Vec<Vec<TransitionId>> = Vec::new(alloc);
    for _ in 0..tables.steps() {
        behind.push(Vec::new(alloc))?;
    }
    for number in 0..tables.transitions() {
        let transition = TransitionId(number as u16);
        for step in tables.preceding(transition) {
            if let Some(list) = behind.get_mut(step.0 as usize) {
                list.push(transition)?;
            }
        }
    }
    Ok(behind)
}

/// A chart, and of each step the transitions that it precedes.
#[derive(Clone, Copy)]
struct Ways<'a> {
    tables: &'a Tables,
    behind: &'a [Vec<TransitionId>],
}

// Marks a step, and puts it last where it wasn't marked.
fn reach(marks: &mut Flags, reached: &mut Vec<StepId>, step: StepId) -> Result<(), AllocError> {
    let place = step.0 as usize;
    if place < marks.count() && !marks.get(place) {
        marks.set(place, true);
        reached.push(step)?;
    }
    Ok(())
}

impl Ways<'_> {
    // Reaches the steps behind a transition.
    fn pass(
        &self,
        marks: &mut Flags,
        reached: &mut Vec<StepId>,
        transition: TransitionId,
    ) -> Result<(), AllocError> {
        if transition.0 as usize >= self.tables.transitions() {
            return Ok(());
        }
        for next in self.tables.following(transition) {
            reach(marks, reached, *next)?;
        }
        Ok(())
    }

    // Reaches the steps behind the transitions that a step is before.
    fn go_on(
        &self,
        marks: &mut Flags,
        reached: &mut Vec<StepId>,
        step: StepId,
    ) -> Result<(), AllocError> {
        let Some(list) = self.behind.get(step.0 as usize) else {
            return Ok(());
        };
        for transition in list {
            self.pass(marks, reached, *transition)?;
        }
        Ok(())
    }

    // The steps to which transitions lead from a step, itself among them.
    fn reached_from(&self, alloc: Global, step: StepId) -> Result<Flags, AllocError> {
        let mut marks = Flags::new(alloc, self.tables.steps())?;
        let mut reached = Vec::new(alloc);
        reach(&mut marks, &mut reached, step)?;
        for place in 0..self.tables.steps() {
            let Some(one) = reached.get(place) else {
                break;
            };
            let one = *one;
            self.go_on(&mut marks, &mut reached, one)?;
        }
        Ok(marks)
    }

    // Whether nothing joins the sequences that begin with these steps.
    fn never_join(&self, alloc: Global, following: &[StepId]) -> Result<bool, AllocError> {
        let mut sequences = Vec::new(alloc);
        for step in following {
            sequences.push(self.reached_from(alloc, *step)?)?;
        }
        Ok(!are_joined(self.tables, &sequences))
    }
}

// Whether two of these sequences lead to two of these steps: the pairs of a sequence and a step to which it leads are neither all of one
// sequence nor all of one step.
fn meet(sequences: &[Flags], steps: &[StepId]) -> bool {
    let mut first: Option<(usize, StepId)> = None;
    let (mut has_other_sequence, mut has_other_step) = (false, false);
    for (number, sequence) in sequences.iter().enumerate() {
        for step in steps {
            let place = step.0 as usize;
            if place >= sequence.count() || !sequence.get(place) {
                continue;
            }
            match first {
                None => first = Some((number, *step)),
                Some((other, one)) => {
                    has_other_sequence = has_other_sequence || other != number;
                    has_other_step = has_other_step || one != *step;
                }
            }
        }
    }
    has_other_sequence && has_other_step
}

// Whether a transition joins two of these sequences.
fn are_joined(tables: &Tables, sequences: &[Flags]) -> bool {
    for number in 0..tables.transitions() {
        if meet(sequences, tables.preceding(TransitionId(number as u16))) {
            return true;
        }
    }
    false
}

// Tells a transition whose sequences nothing joins.
fn tell_fork(
    findings: &mut Findings,
    view: &View<'_>,
    transition: TransitionId,
    following: &[StepId],
) -> Result<(), AllocError> {
    let name = view.transition(findings.alloc(), transition)?;
    let steps = view.step_list(findings.alloc(), following)?;
    let item = Item::Transition {
        program: view.number,
        transition: transition.0 as usize,
    };
    findings.tell(
        Kind::NotJoined,
        item,
        &[
            b"nothing joins the sequences that transition ",
            &name,
            b" begins: ",
            &steps,
        ],
    )
}

/// Tells each transition that begins several sequences together of which no two are joined; whether it gave up before the last one, as
/// the budget didn't allow it. The one error is that memory was refused.
pub fn tell_forks(
    findings: &mut Findings,
    view: &View<'_>,
    tables: &Tables,
    budget: &mut Budget,
) -> Result<bool, AllocError> {
    let alloc = findings.alloc();
    let behind = behind_steps(alloc, tables)?;
    let ways = Ways {
        tables,
        behind: &behind,
    };
    let looks = tables.steps().saturating_add(tables.transitions());
    for number in 0..tables.transitions() {
        let transition = TransitionId(number as u16);
        let following = tables.following(transition);
        if following.len() < 2 {
            continue;
        }
        if !budget.take(following.len(), looks) {
            return Ok(true);
        }
        if ways.never_join(alloc, following)? {
            tell_fork(findings, view, transition, following)?;
        }
    }
    Ok(false)
}
