//! What is drawn of transitions (2.6.3).

ghost use Rattle.std.specs.Prelude.{◌≡◌, IfOk};
ghost use Rattle.sfc_drawing.specs.Said as said;

use crate::drawn::{Corner, DrawnTransition, Line, Own, Stubs, TransitionMark};
use crate::owned::owned;
use crate::wrap::wrapped;
use sfc_base::items::Items;
use sfc_base::name::Name;
use sfc_layout::node_box::NodeBox;
use sfc_plant::chart::Transition;
use std::alloc::{AllocError, Global};

/// Where a transition stands, and what is drawn at it.
#[derive(Drop)]
pub struct TransitionSpot {
    pub sheet: Corner,
    pub place: NodeBox,
    pub own: Items<Own>,
    pub stubs: Option<Stubs>,
}

/// How far down the text of a transition goes below its first line: a line for its name, where it has one, and those of its condition.
pub fn text_height(has_name: bool, lines: usize) -> u32 {
    let lines = lines.saturating_add(usize::from(has_name));
    let lines = u32::try_from(lines).unwrap_or(u32::MAX);
    lines.saturating_sub(1).saturating_mul(15)
}

// The lines of the condition, the first of them so far down.
fn draw_lines(
    alloc: Global,
    lines: &[Vec<u8>],
    x: u32,
    first: u32,
) -> Result<Items<Line>, AllocError> {
    let mut drawn = Vec::new(alloc);
    let mut y = first;
    for line in lines {
        drawn.push(Line {
            x,
            y,
            text: owned(alloc, line)?,
        })?;
        y = y.saturating_add(15);
    }
    Ok(Items::from_vec(drawn))
}

// The name of a transition, if it has one.
fn name_of(alloc: Global, name: &Option<Name>) -> Result<Option<Items<u8>>, AllocError>
    ensures { IfOk result (λ copy. copy ≡ name.now) }
{
    match name {
        Some(name) => Ok(Some(owned(alloc, name.spelling())?)),
        None => Ok(None),
    }
}

/// What is drawn of a transition with this condition. The one error is that memory was refused.
pub fn draw_transition(
    alloc: Global,
    transition: &Transition,
    condition: &[u8],
    spot: TransitionSpot,
    mark: TransitionMark,
) -> Result<DrawnTransition, AllocError>
    ensures said { IfOk result (λ drawn. said.transition_drawn drawn ≡ said.transition_said mark transition.now) }
    ensures place { IfOk result (λ drawn. drawn.place ≡ spot.place) }
{
    let lines = wrapped(alloc, condition)?;
    let down = if transition.name.is_some() { 25 } else { 10 };
    let first = spot.place.top.saturating_add(down);
    let x = spot.place.x.saturating_add(21);
    Ok(DrawnTransition {
        name: name_of(alloc, &transition.name)?,
        priority: transition.priority,
        condition: owned(alloc, condition)?,
        sheet: spot.sheet,
        place: spot.place,
        own: spot.own,
        lines: draw_lines(alloc, lines.as_slice(), x, first)?,
        stubs: spot.stubs,
        mark,
    })
}
