//! What is drawn of links (2.6.5).

ghost use Rattle.std.specs.Prelude.{◌≡◌, ◌++◌, IfOk, OnOk, flat_map, map, option_map, slice_get};
ghost use Rattle.sfc_drawing.specs.Said as said;

use crate::drawn::{Corner, DrawnLink, End};
use crate::owned::owned;
use crate::spots::Spots;
use sfc_base::ids::TransitionId;
use sfc_base::items::Items;
use sfc_base::references::StepId;
use sfc_layout::chart::Link;
use sfc_layout::drawing::Drawing;
use sfc_layout::node_box::NodeBox;
use sfc_plant::chart::Transition;
use std::alloc::{AllocError, Global};

// Where a link stands, how it is drawn, and the priority that is said at it.
#[derive(Clone, Copy)]
struct LinkSpot {
    sheet: Corner,
    drawing: Drawing,
    entry: u32,
    line: u32,
    priority: Option<u32>,
}

/// On which side of a transition its links are.
#[derive(Clone, Copy, Debug, PartialEq, Eq)]
pub enum Side {
    /// Those that lead to it.
    To,
    /// Those that lead from it.
    From,
}

// The place of a transition among those of its chart, the priority that was given, and a side of it.
#[derive(Clone, Copy)]
struct Ranked {
    place: u16,
    priority: Option<u32>,
    side: Side,
}

// Where the link with this number stands, by its rank.
fn spot_of(spots: &Spots<'_>, number: usize, link: Link, priority: Option<u32>) -> LinkSpot {
    let boxes = spots.layout.boxes.as_slice();
    let drawing = match spots.layout.links.as_slice().get(number) {
        Some(drawing) => *drawing,
        None => Drawing::Jump {
            x: 0,
            top: 0,
            bottom: 0,
        },
    };
    let sheet = boxes
        .get(link.source)
        .map_or(0, |place: &NodeBox| place.sheet);
    LinkSpot {
        sheet: spots.sheet(sheet),
        drawing,
        entry: spots.entry(link.target),
        line: boxes.get(link.target).map_or(0, |place: &NodeBox| place.x),
        priority,
    }
}

// The priority that is said at a link from a step: that of a branch.
fn priority_at(spots: &Spots<'_>, step: StepId, ranked: Ranked) -> Option<u32> {
    if spots.has_branches(usize::from(step.0)) {
        ranked.priority
    } else {
        None
    }
}

// The end that is this step.
fn step_end(alloc: Global, spots: &Spots<'_>, step: StepId) -> Result<End, AllocError>
    ensures { IfOk result (λ end. end ≡ said.step_end spots.now.names.now step) }
{
    Ok(End::Step(owned(alloc, spots.names.step(step))?))
}

// The end that is the transition at this place.
fn transition_end(place: u16) -> End
    ensures { result ≡ said.transition_end place }
{
    End::Transition(u64::from(place) + 1)
}

fn draw_link(source: End, target: End, spot: LinkSpot) -> DrawnLink
    ensures { said.link_drawn result ≡ said.ends source target }
{
    DrawnLink {
        source,
        target,
        sheet: spot.sheet,
        drawing: spot.drawing,
        entry: spot.entry,
        line: spot.line,
        priority: spot.priority,
    }
}

// The link between a step and a transition.
fn draw_between(
    alloc: Global,
    spots: &Spots<'_>,
    number: usize,
    step: StepId,
    ranked: Ranked,
) -> Result<DrawnLink, AllocError>
    ensures { IfOk result (λ drawn. said.link_drawn drawn ≡ said.link_on ranked.side spots.now.names.now ranked.place step) }
{
    let above = usize::from(step.0);
    let below = spots.steps.saturating_add(usize::from(ranked.place));
    let this = step_end(alloc, spots, step)?;
    let other = transition_end(ranked.place);
    match ranked.side {
        Side::To => {
            let link = Link {
                source: above,
                target: below,
            };
            let spot = spot_of(spots, number, link, priority_at(spots, step, ranked));
            Ok(draw_link(this, other, spot))
        }
        Side::From => {
            let link = Link {
                source: below,
                target: above,
            };
            let spot = spot_of(spots, number, link, None);
            Ok(draw_link(other, this, spot))
        }
    }
}

// The links on a side of a transition.
fn push_side(
    alloc: Global,
    drawn: &mut Vec<DrawnLink>,
    spots: &Spots<'_>,
    steps: &[StepId],
    ranked: Ranked,
) -> Result<(), AllocError>
    ensures { OnOk result (map said.link_drawn drawn.new.items
        ≡ map said.link_drawn drawn.old.items ++ map (said.link_on ranked.side spots.now.names.now ranked.place) steps.now) }
{
    for step in steps {
        let number = drawn.len();
        let link = draw_between(alloc, spots, number, *step, ranked)?;
        drawn.push(link)?;
    }
    Ok(())
}

// The transition with this number, if there is one.
fn transition_at(transitions: &[Transition], place: usize) -> Option<&Transition>
    ensures { option_map (λ transition. transition.now) result ≡ slice_get transitions.now place }
{
    transitions.get(place)
}

// The links of the transition at this place, if there is one.
fn push_found(
    alloc: Global,
    drawn: &mut Vec<DrawnLink>,
    spots: &Spots<'_>,
    found: Option<&Transition>,
    place: u16,
) -> Result<(), AllocError>
    ensures { OnOk result (map said.link_drawn drawn.new.items
        ≡ map said.link_drawn drawn.old.items
        ++ said.links_of spots.now.names.now place (option_map (λ transition. transition.now) found.entry)) }
{
    match found {
        Some(transition) => {
            let to = Ranked {
                place,
                priority: transition.priority,
                side: Side::To,
            };
            let from = Ranked {
                side: Side::From,
                ..to
            };
            push_side(alloc, drawn, spots, transition.preceding.as_slice(), to)?;
            push_side(alloc, drawn, spots, transition.following.as_slice(), from)
        }
        None => Ok(()),
    }
}

// The links of a transition.
fn push_links(
    alloc: Global,
    drawn: &mut Vec<DrawnLink>,
    spots: &Spots<'_>,
    transitions: &[Transition],
    id: TransitionId,
) -> Result<(), AllocError>
    ensures { OnOk result (map said.link_drawn drawn.new.items
        ≡ map said.link_drawn drawn.old.items ++ said.links_at spots.now.names.now transitions.now id) }
{
    let found = transition_at(transitions, usize::from(id.0));
    push_found(alloc, drawn, spots, found, id.0)
}

/// What is drawn of all links, in the order of the rank of their transitions. The one error is that memory was refused.
pub fn draw_links(
    alloc: Global,
    spots: &Spots<'_>,
    transitions: &[Transition],
    ranked: &[TransitionId],
) -> Result<Items<DrawnLink>, AllocError>
    ensures { IfOk result (λ drawn. map said.link_drawn drawn ≡ flat_map (said.links_at spots.now.names.now transitions.now) ranked.now) }
{
    let mut drawn = Vec::new(alloc);
    for id in ranked {
        push_links(alloc, &mut drawn, spots, transitions, *id)?;
    }
    Ok(Items::from_vec(drawn))
}
