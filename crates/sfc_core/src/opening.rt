//! What came before, in place of the events.

ghost use Rattle.std.specs.Prelude.{◌≡◌, ◌≤ℤ◌, ◌^◌, pos, negsuc};

use sfc_instances::instances::Instances;
use sfc_plant::plant::Plant;
use sfc_tasks::table::TaskTable;
use std::alloc::{AllocError, Global};

/// What a history leaves for later events: of each variable the stored and the forced value, of each program instance and each
/// task what its next scan needs, and the instant of the latest event. It is used with the plant that it was made for.
pub struct Opening {
    pub(crate) instances: Instances,
    pub(crate) tasks: TaskTable,
    pub(crate) last: i64,
    ghost last_low: { negsuc 0 ≤ℤ last },
    ghost last_high: { last ≤ℤ pos (2 ^ 62) },
}

// By hand, so that a caller that drops one proves one call.
impl Drop for Opening {
    fn drop(self) {
        let Opening {
            instances: _,
            tasks: _,
            last: _,
        } = self;
    }
}

#[tactic(auto, unfolding(crate::specs::Openings::IsOpeningFor))]
impl Opening {
    ghost use Rattle.std.specs.Prelude.{[], IfOk};
    ghost use Rattle.sfc_core.specs.Past.{history_past};
    ghost use Rattle.sfc_core.specs.Openings.{IsOpeningFor, past_of};

    /// That of no event: a resource that is restored from it is as one that was opened anew. All memory is taken here;
    /// the one error is that memory was refused.
    pub fn new(alloc: Global, plant: &Plant) -> Result<Opening, AllocError>
        ensures sizes { IfOk result (λ opening. IsOpeningFor plant.now opening) }
        ensures empty { IfOk result (λ opening. past_of plant.now opening ≡ history_past plant.now []) }
    {
        Ok(Opening {
            instances: Instances::new(alloc, plant)?,
            tasks: TaskTable::new(plant),
            last: -1,
        })
    }
}
