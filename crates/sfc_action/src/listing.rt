//! Which on-delays there are.

ghost use Rattle.std.specs.Prelude.{◌≡◌, ◌<◌, [], All, length, map, IfOk, OnOk};
ghost use Rattle.sfc_action.specs.Private.DelayLists.{with_delay};
ghost use Rattle.sfc_action.specs.Private.Listing.{IsListing, IsLonger, IsList};
ghost use Rattle.sfc_action.specs.Private.Keeping.{IsCovered, delay_of};

use crate::blocks::Block;
use crate::timed::Timed;
use sfc_plant::association::Qualifier;
use sfc_tables::step_action::StepAction;
use sfc_timers::OnDelay;
use std::alloc::{AllocError, Global};

// Adds the on-delay of this association's action and qualifier, if it has a time and there is none yet. `seen` has those
// that there are.
fn add_block(
    blocks: &mut Vec<Block>,
    seen: &mut Timed,
    association: &StepAction,
) -> Result<(), AllocError>
    requires listing { IsListing (length seen.old.limited) seen.old blocks.old.items }
    requires action { association.now.action.0 < length seen.old.limited }
    ensures listing { OnOk result (IsListing (length seen.old.limited) seen.new blocks.new.items) }
    ensures longer { OnOk result (IsLonger blocks.old.items blocks.new.items) }
    ensures covered { OnOk result (IsCovered blocks.new.items association.now) }
    ensures delays { OnOk result (map delay_of blocks.new.items
        ≡ with_delay (map delay_of blocks.old.items) association.now.action.0 association.now.qualifier) }
{
    if let Qualifier::Timed(qualifier, _) = association.qualifier {
        let action = association.action;
        if !seen.has(qualifier, action.0) {
            seen.add(qualifier, action.0);
            blocks.push(Block {
                action,
                qualifier,
                delay: OnDelay::new(),
                elapsed: false,
            })?;
        }
    }
    Ok(())
}

/// An on-delay for each action and qualifier with a time that some association has. `seen` is room to tell which those
/// are. The one error is that memory was refused.
pub fn list_blocks(
    alloc: Global,
    associations: &[StepAction],
    seen: &mut Timed,
) -> Result<Vec<Block>, AllocError>
    requires listing { IsListing (length seen.old.limited) seen.old [] }
    requires actions { All (λ x. x.action.0 < length seen.old.limited) associations.now }
    ensures { IfOk result (λ blocks. IsList (length seen.old.limited) associations.now blocks.items) }
{
    let mut blocks = Vec::new(alloc);
    for association in associations {
        add_block(&mut blocks, seen, association)?;
    }
    Ok(blocks)
}
