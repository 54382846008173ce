//! What is seen of a program instance before a scan and after it.

ghost use Rattle.std.specs.Prelude.{◌<◌, ◌≤ℤ◌, ◌^◌, pos, length};
ghost use Rattle.sfc_replay.specs.sfc_instance.Views.{tables_in};

use crate::reach::{Reach, mark};
use crate::reached::Reached;
use crate::sfc_instance::program_moment::ProgramMoment;
use crate::sfc_instance::program_view::ProgramView;
use sfc_base::ids::TransitionId;
use sfc_base::references::StepId;
use sfc_base::ticks::Ticks;
use sfc_expr::eval::eval;
use sfc_expr::view::View;
use sfc_flags::flags::Flags;
use sfc_plant::chart::{Chart, Transition};

/// The number of the program type of an instance, if there is such an instance.
pub fn program_of(view: &ProgramView<'_>) -> Option<usize> {
    let plant = view.plant();
    let instance = plant.instances().get(usize::from(view.instance().0))?;
    Some(instance.program.0)
}

/// The chart of an instance, if there is such an instance.
pub fn chart_of<'a>(view: &ProgramView<'a>) -> Option<&'a Chart> {
    Some(&view.plant().type_of(view.instance())?.chart)
}

// Whether all of these steps are active.
fn are_active(moment: &ProgramMoment<'_>, steps: &[StepId]) -> bool {
    for step in steps {
        if !moment.is_active(*step) {
            return false;
        }
    }
    true
}

// How far a scan at this moment would reach a transition, but for what clears it; a condition that ends with a fault isn't TRUE.
fn reached_at(moment: &ProgramMoment<'_>, transition: &Transition) -> Reached {
    if !are_active(moment, transition.preceding.as_slice()) {
        return Reached::Never;
    }
    match eval(transition.condition.expr(), moment, &mut Ticks::new()) {
        Ok(value) if value.is_true() => Reached::True,
        _ => Reached::Enabled,
    }
}

// Looks at each transition.
fn look_at(reach: &mut Reach, moment: &ProgramMoment<'_>, transitions: &[Transition]) {
    for (own, transition) in reach.transitions.iter_mut().zip(transitions) {
        let reached = reached_at(moment, transition);
        own.reach(reached);
        own.holds = reached == Reached::True;
    }
}

/// Looks at an instance before a scan at t, from 0 to 2^62 microseconds: which transitions are enabled, and whose conditions are TRUE.
pub fn look_before(reach: &mut Reach, view: &ProgramView<'_>, t: i64)
    requires low { pos 0 ≤ℤ t }
    requires high { t ≤ℤ pos (2 ^ 62) }
{
    if let Some(chart) = chart_of(view) {
        look_at(
            reach,
            &ProgramMoment::new(*view, t),
            chart.transitions.as_slice(),
        );
    }
}

// Marks what is in a set, by number.
fn mark_all(marks: &mut [bool], set: &Flags) {
    let ticks = &mut Ticks::new();
    let mut from = 0usize;
    for _ in 0..set.count() {
        let Some(number) = set.next_set(from, ticks) else {
            break;
        };
        mark(marks, number);
        from = number.saturating_add(1);
    }
}

// Whether both leave one step.
fn share_step(some: &[StepId], others: &[StepId]) -> bool {
    for step in some {
        if others.contains(step) {
            return true;
        }
    }
    false
}

// The first transition that the scan cleared and that leaves one of these steps.
fn taker_of(view: &ProgramView<'_>, steps: &[StepId]) -> Option<TransitionId> {
    for number in 0..view.tables().transitions() {
        let transition = TransitionId(number as u16);
        if view.cleared(transition) && share_step(view.tables().preceding(transition), steps) {
            return Some(transition);
        }
    }
    None
}

// Notes of a transition that it was cleared, or by which one it was not.
fn note_transition(reach: &mut Reach, view: &ProgramView<'_>, transition: TransitionId)
    requires { transition.0 < length (tables_in view.now).sides }
{
    let is_cleared = view.cleared(transition);
    let Some(own) = reach.transitions.get_mut(usize::from(transition.0)) else {
        return;
    };
    if is_cleared {
        own.reach(Reached::Cleared);
    } else if own.holds && own.taker.is_none() {
        own.taker = taker_of(view, view.tables().preceding(transition));
    }
}

// Notes of each transition what became of it.
fn note_transitions(reach: &mut Reach, view: &ProgramView<'_>) {
    for number in 0..view.tables().transitions() {
        note_transition(reach, view, TransitionId(number as u16));
    }
}

/// Notes what a scan did that ran without a fault: active steps, cleared transitions and those that lost their token to them, executed
/// actions.
pub fn note_after(reach: &mut Reach, view: &ProgramView<'_>) {
    reach.scans = reach.scans.saturating_add(1);
    mark_all(&mut reach.steps, view.active_flags());
    note_transitions(reach, view);
    mark_all(&mut reach.actions, view.executed_flags());
}
