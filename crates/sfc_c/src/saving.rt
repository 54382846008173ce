//! What a resource leaves, saved and gone back to.

ghost use Rattle.std.specs.Prelude.{◌≡◌, ◌<◌, ◌≤◌, ◌⊎◌, ℕ, None, Some, length, pos, slice_get};
ghost use Rattle.sfc_replay.specs.sfc_debug.Histories.{CommandHistory};
ghost use Rattle.sfc_replay.specs.sfc_debug.Steered.{Steered};
ghost use Rattle.sfc_c.specs.Codes as codes;
ghost use Rattle.sfc_c.specs.Handles.{Holds};
ghost use Rattle.sfc_c.specs.Resources.{IsSaved, slots_of};

use crate::handle::Handle;
use crate::status::CLOSED;
use std::alloc::Global;

/// Saves what the commands so far leave for later ones under a number: in the place of what was saved under it, or as the next behind
/// all others. It answers 0; -3 where the number is above that of the next, -4 where memory was refused, and then all is as it was.
#[unsafe(no_mangle)]
pub extern "C" fn sfc_save(alloc: Global, plc: &mut Handle, number: u16) -> i32
    ensures kept { (s : Steered) (h : CommandHistory) → Holds plc.old.value s h → Holds plc.new.value s h }
    ensures saved { (s : Steered) (h : CommandHistory) → Holds plc.old.value s h → result ≡ pos 0 →
        IsSaved s h (slice_get (slots_of plc.new.value) number) }
    ensures others { (k : ℕ) → (k ≡ number → ⊥) → slice_get (slots_of plc.new.value) k ≡ slice_get (slots_of plc.old.value) k }
    ensures refused { (result ≡ pos 0 → ⊥) → slots_of plc.new.value ≡ slots_of plc.old.value }
    ensures unknown { (s : Steered) (h : CommandHistory) → Holds plc.old.value s h →
        length (slots_of plc.old.value) < number → result ≡ codes.unknown }
    ensures memory { (s : Steered) (h : CommandHistory) → Holds plc.old.value s h →
        number ≤ length (slots_of plc.old.value) → (result ≡ pos 0) ⊎ (result ≡ codes.no_memory) }
    ensures closed { plc.old.value ≡ None → result ≡ codes.closed }
{
    match plc.take(alloc) {
        None => CLOSED,
        Some(mut held) => {
            let code = held.save(alloc, number as usize);
            plc.put(held, alloc);
            code
        }
    }
}

/// Goes back to what was saved under a number: what the resource was told since counts no more. Breakpoints and forces are those of then;
/// conditions that were read since stay. It takes no memory. -3 where nothing was saved under the number.
#[unsafe(no_mangle)]
pub extern "C" fn sfc_restore(alloc: Global, plc: &mut Handle, number: u16) -> i32
    ensures restored { (s : Steered) (h : CommandHistory) (then : CommandHistory) → Holds plc.old.value s h →
        IsSaved s then (slice_get (slots_of plc.old.value) number) → (result ≡ pos 0) × Holds plc.new.value s then }
    ensures unknown { (s : Steered) (h : CommandHistory) → Holds plc.old.value s h →
        slice_get (slots_of plc.old.value) number ≡ None → (result ≡ codes.unknown) × Holds plc.new.value s h }
    ensures slots { slots_of plc.new.value ≡ slots_of plc.old.value }
    ensures closed { plc.old.value ≡ None → result ≡ codes.closed }
{
    match plc.take(alloc) {
        None => CLOSED,
        Some(mut held) => {
            let code = held.restore(number as usize);
            plc.put(held, alloc);
            code
        }
    }
}
