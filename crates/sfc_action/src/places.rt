//! Where the on-delays of each action stand.

ghost use Rattle.std.specs.Prelude.{◌≡◌, map, IfOk};
ghost use Rattle.sfc_action.specs.Private.Live.{AreListed};
ghost use Rattle.sfc_action.specs.Private.Delays.{AreOf};

use crate::blocks::Block;
use sfc_tables::grouped_places::GroupedPlaces;
use std::alloc::{AllocError, Global};

// The numbers of the actions of these on-delays. The one error is that memory was refused.
fn actions_of(alloc: Global, blocks: &[Block]) -> Result<Vec<usize>, AllocError>
    ensures { IfOk result (λ actions. actions.items ≡ map (λ block. block.action.0) blocks.now) }
{
    blocks.iter().map(|block| block.action.0).collect(alloc)
}

/// Of each of so many actions the places of its on-delays among these. The one error is that memory was refused.
pub fn list_places(
    alloc: Global,
    actions: usize,
    blocks: &[Block],
) -> Result<GroupedPlaces, AllocError>
    requires { AreOf actions blocks.now }
    ensures { IfOk result (λ places. AreListed blocks.now places) }
{
    let numbers = actions_of(alloc, blocks)?;
    let places = GroupedPlaces::build(alloc, actions, &numbers)?;
    Ok(places)
}
