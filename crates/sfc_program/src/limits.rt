//! The limits on a program type (our choice).

ghost use Rattle.std.specs.Prelude.{◌≡◌, ◌≤◌, length, map, nat_lt, OnOk};
ghost use Rattle.sfc_text.specs.Trees.{element_of};
ghost use Rattle.sfc_variables.specs.Checks.{Loads};
ghost use Rattle.sfc_program.specs.Elements.{steps_of, transitions_of, association_count};
ghost use Rattle.sfc_program.specs.Loading.{limits_check};

use sfc_base::limits::{ASSOCIATIONS, STEPS, TRANSITIONS};
use sfc_check::placed_error::PlacedLoadError;
use sfc_events::load_error::{Limit, LoadError};
use sfc_text::tree::Element;
use sfc_tokens::span::{NOWHERE, Span};

// Whether there are more steps than this.
fn exceeds_steps(elements: &[Element], most: usize) -> bool
    ensures { result ≡ nat_lt most (length (steps_of (map element_of elements.now))) }
{
    let mut left = most;
    let mut rest = elements;
    'elements: while let Some((element, after)) = rest.split_first() {
        if let Element::Step(_, _) = element {
            if left == 0 {
                return true;
            }
            left -= 1;
        }
        rest = after;
    }
    false
}

// Whether there are more transitions than this.
fn exceeds_transitions(elements: &[Element], most: usize) -> bool
    ensures { result ≡ nat_lt most (length (transitions_of (map element_of elements.now))) }
{
    let mut left = most;
    let mut rest = elements;
    'elements: while let Some((element, after)) = rest.split_first() {
        if let Element::Transition(_, _) = element {
            if left == 0 {
                return true;
            }
            left -= 1;
        }
        rest = after;
    }
    false
}

// Whether the steps have more associations than this.
fn exceeds_associations(elements: &[Element], most: usize) -> bool
    ensures { result ≡ nat_lt most (association_count (steps_of (map element_of elements.now))) }
{
    let mut left = most;
    let mut rest = elements;
    'elements: while let Some((element, after)) = rest.split_first() {
        if let Element::Step(step, _) = element {
            let count = step.associations.len();
            if count > left {
                return true;
            }
            left -= count;
        }
        rest = after;
    }
    false
}

// The name of the step behind so many others.
fn place_of_step(elements: &[Element], others: usize) -> Span {
    let mut left = others;
    for element in elements {
        if let Element::Step(step, _) = element {
            if left == 0 {
                return step.name.span();
            }
            left = left.saturating_sub(1);
        }
    }
    NOWHERE
}

// The name of the transition behind so many others, or the transition where it has none.
fn place_of_transition(elements: &[Element], others: usize) -> Span {
    let mut left = others;
    for element in elements {
        if let Element::Transition(transition, span) = element {
            if left == 0 {
                return match &transition.name {
                    Some(name) => name.span(),
                    None => *span,
                };
            }
            left = left.saturating_sub(1);
        }
    }
    NOWHERE
}

// The action of the association behind so many others.
fn place_of_association(elements: &[Element], others: usize) -> Span {
    let mut left = others;
    for element in elements {
        if let Element::Step(step, _) = element {
            if let Some(association) = step.associations.as_slice().get(left) {
                return association.value().action.span();
            }
            left = left.saturating_sub(step.associations.len());
        }
    }
    NOWHERE
}

/// Refuses more than 1,024 steps, 2,048 transitions or 4,096 associations, at the first that is too much.
pub fn check_limits(elements: &[Element]) -> Result<(), PlacedLoadError>
    ensures loads { Loads (λ u. u) result (limits_check (map element_of elements.now)) tt }
    ensures few { OnOk result (length (steps_of (map element_of elements.now)) ≤ STEPS) }
{
    if exceeds_steps(elements, STEPS) {
        let place = place_of_step(elements, STEPS);
        return Err(PlacedLoadError::new(LoadError::Limit(Limit::Steps), place));
    }
    if exceeds_transitions(elements, TRANSITIONS) {
        let place = place_of_transition(elements, TRANSITIONS);
        return Err(PlacedLoadError::new(LoadError::Limit(Limit::Transitions), place));
    }
    if exceeds_associations(elements, ASSOCIATIONS) {
        let place = place_of_association(elements, ASSOCIATIONS);
        return Err(PlacedLoadError::new(LoadError::Limit(Limit::Associations), place));
    }
    Ok(())
}
