//! The transitions that a step is the first to precede (2.6.3).

ghost use Rattle.std.specs.Prelude.{◌≡◌, ◌<◌, All, map, length, IfOk};
ghost use Rattle.std.specs.List.{range_with_len};
ghost use Rattle.sfc_base.specs.declared.ids.TransitionId.{TransitionId};
ghost use Rattle.sfc_tables.specs.Places.{places_of};
ghost use Rattle.sfc_tables.specs.Departures.{first_steps};

use crate::grouped_places::GroupedPlaces;
use crate::links::Links;
use sfc_base::ids::TransitionId;
use std::alloc::{AllocError, Global};

// Of each of these transitions the first step before it.
fn list_firsts(
    alloc: Global,
    links: &Links,
    ranked: &[TransitionId],
) -> Result<Vec<usize>, AllocError>
    requires within { All (λ (tr : TransitionId). tr.0 < length links.now) ranked.now }
    ensures { IfOk result (λ firsts. firsts.items ≡ first_steps links.now ranked.now) }
{
    let mut firsts = Vec::new(alloc);
    for transition in ranked {
        let first = match links.preceding(*transition).first() {
            Some(step) => usize::from(step.0),
            None => 0,
        };
        firsts.push(first)?;
    }
    Ok(firsts)
}

/// Of each of so many steps the places among these transitions of those whose first preceding step it is. The one error is that
/// memory was refused.
pub fn list_departures(
    alloc: Global,
    steps: usize,
    links: &Links,
    ranked: &[TransitionId],
) -> Result<GroupedPlaces, AllocError>
    requires within { All (λ (tr : TransitionId). tr.0 < length links.now) ranked.now }
    ensures { IfOk result (λ departures. departures
        ≡ map (places_of (first_steps links.now ranked.now)) (range_with_len 0 steps)) }
{
    let firsts = list_firsts(alloc, links, ranked)?;
    GroupedPlaces::build(alloc, steps, &firsts)
}
