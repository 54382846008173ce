//! Stores that may be undone.

ghost use Rattle.std.specs.Prelude.{◌≡◌, ◌<◌, length, slice_set};
ghost use Rattle.sfc_base.specs.declared.value.Value.TheVariants.{Bool};
ghost use Rattle.sfc_image.specs.Private.Keeping.{AreTracked, slot_at, tried as tried_slot};

use crate::slot::{Slot, store_tried, store_tried_bool};
use sfc_base::value::Value;

#[tactic(auto, using(crate::proofs::Tracked::tracked_same, crate::proofs::Tracked::tracked_more, crate::proofs::Tracked::capacity_left))]
/// Stores a value in a transaction, and lists the variable if it wasn't written there before. It answers how many are
/// listed now.
pub fn try_store(
    slots: &mut [Slot],
    written: &mut [usize],
    count: usize,
    i: usize,
    value: Value,
) -> usize
    requires place { i < length slots.old }
    requires tracked { AreTracked slots.old written.old count }
    ensures slots { slots.new ≡ slice_set slots.old i (tried_slot value (slot_at slots.old i)) }
    ensures tracked { AreTracked slots.new written.new result }
{
    if store_tried(&mut slots[i], value) {
        return count;
    }
    written[count] = i;
    count + 1
}

#[tactic(auto, using(crate::proofs::Tracked::tracked_same, crate::proofs::Tracked::tracked_more, crate::proofs::Tracked::capacity_left))]
/// Stores a BOOL in a transaction, as `try_store` does.
pub fn try_bool(
    slots: &mut [Slot],
    written: &mut [usize],
    count: usize,
    i: usize,
    value: bool,
) -> usize
    requires place { i < length slots.old }
    requires tracked { AreTracked slots.old written.old count }
    ensures slots { slots.new ≡ slice_set slots.old i (tried_slot (Bool value) (slot_at slots.old i)) }
    ensures tracked { AreTracked slots.new written.new result }
{
    if store_tried_bool(&mut slots[i], value) {
        return count;
    }
    written[count] = i;
    count + 1
}
