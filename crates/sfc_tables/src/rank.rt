//! The rank of transitions.

ghost use Rattle.std.specs.Prelude.{◌≡◌, ◌≤◌, length, IfOk};
ghost use Rattle.sfc_tables.specs.Ranks.{key as rank_key, IsRankOrder, priorities_of};

use sfc_base::ids::TransitionId;
use sfc_base::limits::TRANSITIONS;
use sfc_plant::chart::Transition;
use std::alloc::{AllocError, Global};

// No priority comes after every priority.
fn key(priority: Option<u32>) -> u64
    ensures { result ≡ rank_key priority }
{
    match priority {
        Some(p) => u64::from(p),
        None => 1 << 32,
    }
}

/// The transitions in rank order. The one error is that memory was refused.
pub fn rank_order(
    alloc: Global,
    transitions: &[Transition],
) -> Result<Vec<TransitionId>, AllocError>
    requires { length transitions.now ≤ TRANSITIONS }
    ensures { IfOk result (λ ranked. IsRankOrder (priorities_of transitions.now) ranked.items) }
{
    let mut keyed: Vec<(u64, u16)> = Vec::new(alloc);
    for (i, transition) in transitions.iter().enumerate() {
        keyed.push((key(transition.priority), i as u16))?;
    }
    keyed.sort_unstable();
    let mut ranked = Vec::new(alloc);
    for pair in &keyed {
        ranked.push(TransitionId(pair.1))?;
    }
    Ok(ranked)
}
