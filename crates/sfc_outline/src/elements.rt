//! The elements of charts.

use crate::bodies::{Body, outline_statements};
use crate::draft::Draft;
use crate::expressions::mention_names;
use crate::item::Item;
use crate::spaces::Scope;
use sfc_base::name::Name;
use sfc_text::tree::{Action, Association, AssociationTime, Element, Qualifier, Step, Transition};
use sfc_tokens::placed::Placed;
use sfc_tokens::span::Span;
use std::alloc::AllocError;

// How many of each kind stand before an element.
#[derive(Clone, Copy)]
struct Counts {
    steps: usize,
    associations: usize,
    transitions: usize,
    actions: usize,
}

impl Counts {
    // How many stand behind the element.
    fn behind(self, element: &Element) -> Counts {
        let mut counts = self;
        match element {
            Element::Step(step, _) => {
                counts.steps = self.steps.saturating_add(1);
                counts.associations = self.associations.saturating_add(step.associations.len());
            }
            Element::Transition(_, _) => counts.transitions = self.transitions.saturating_add(1),
            Element::Action(_, _) => counts.actions = self.actions.saturating_add(1),
        }
        counts
    }
}

// Puts the names last that an association has.
fn mention_association(
    association: &Association,
    scope: &Scope<'_>,
    draft: &mut Draft,
) -> Result<(), AllocError> {
    draft.mention(&association.action, scope.target(&association.action))?;
    if let Qualifier::Timed(_, AssociationTime::Variable(name)) = &association.qualifier {
        draft.mention(name, scope.variable(name))?;
    }
    for indicator in association.indicators.as_slice() {
        draft.mention(indicator, scope.variable(indicator))?;
    }
    Ok(())
}

// Puts the associations of a step last, before which there are so many.
fn outline_associations(
    step: &Step,
    before: usize,
    scope: &Scope<'_>,
    draft: &mut Draft,
) -> Result<(), AllocError> {
    let program = scope.program;
    let mut association = before;
    for written in step.associations.as_slice() {
        let item = Item::Association {
            program,
            association,
        };
        draft.outline(item, written.span())?;
        mention_association(written.value(), scope, draft)?;
        association = association.saturating_add(1);
    }
    Ok(())
}

// The bytes from the first of the names up to the end of the last one; none where there is no name.
fn span_of_names(names: &[Placed<Name>]) -> Option<Span> {
    let first = names.first()?;
    let last = names.last()?;
    Some(Span {
        from: first.span().from,
        to: last.span().to,
    })
}

// Puts one side of a transition last.
fn outline_side(
    item: Item,
    names: &[Placed<Name>],
    scope: &Scope<'_>,
    draft: &mut Draft,
) -> Result<(), AllocError> {
    if let Some(span) = span_of_names(names) {
        draft.outline(item, span)?;
    }
    for name in names {
        draft.mention(name, scope.step(name))?;
    }
    Ok(())
}

// Puts the parts of a transition last.
fn outline_parts(
    written: &Transition,
    transition: usize,
    scope: &Scope<'_>,
    draft: &mut Draft,
) -> Result<(), AllocError> {
    let program = scope.program;
    let preceding = Item::Preceding {
        program,
        transition,
    };
    outline_side(preceding, written.preceding.as_slice(), scope, draft)?;
    let following = Item::Following {
        program,
        transition,
    };
    outline_side(following, written.following.as_slice(), scope, draft)?;
    let condition = Item::Condition {
        program,
        transition,
    };
    draft.outline(condition, written.condition_span)?;
    mention_names(&written.condition, scope, draft)
}

// Puts a transition last.
fn outline_transition(
    written: &Transition,
    span: Span,
    transition: usize,
    scope: &Scope<'_>,
    draft: &mut Draft,
) -> Result<(), AllocError> {
    let program = scope.program;
    let item = Item::Transition {
        program,
        transition,
    };
    match &written.name {
        Some(name) => draft.declare(item, span, name)?,
        None => draft.outline(item, span)?,
    }
    outline_parts(written, transition, scope, draft)
}

// Puts an action last.
fn outline_action(
    written: &Action,
    span: Span,
    action: usize,
    scope: &Scope<'_>,
    draft: &mut Draft,
) -> Result<(), AllocError> {
    let program = scope.program;
    draft.declare(Item::Action { program, action }, span, &written.name)?;
    let before = draft.entries.len();
    outline_statements(&written.body, Body { action, before }, scope, draft)
}

// Puts an element last, before which there are so many.
fn outline_element(
    element: &Element,
    before: Counts,
    scope: &Scope<'_>,
    draft: &mut Draft,
) -> Result<(), AllocError> {
    let program = scope.program;
    match element {
        Element::Step(written, span) => {
            let step = before.steps;
            draft.declare(Item::Step { program, step }, *span, &written.name)?;
            outline_associations(written, before.associations, scope, draft)
        }
        Element::Transition(written, span) => {
            outline_transition(written, *span, before.transitions, scope, draft)
        }
        Element::Action(written, span) => {
            outline_action(written, *span, before.actions, scope, draft)
        }
    }
}

/// Puts the elements of a chart last. The one error is that memory was refused.
pub fn outline_elements(
    elements: &[Element],
    scope: &Scope<'_>,
    draft: &mut Draft,
) -> Result<(), AllocError> {
    let mut counts = Counts {
        steps: 0,
        associations: 0,
        transitions: 0,
        actions: 0,
    };
    for element in elements {
        outline_element(element, counts, scope, draft)?;
        counts = counts.behind(element);
    }
    Ok(())
}
