//! The whole image at once.

ghost use Rattle.std.specs.Prelude.{◌≡◌, ◌<◌, ◌≤◌, None, length};
ghost use Rattle.sfc_replay.specs.sfc_image.Values.{variable_count};
ghost use Rattle.sfc_replay.specs.sfc_core.Agreement.{Agrees as ResourceAgrees, plant_of};
ghost use Rattle.sfc_replay.specs.sfc_debug.Agreement.{Agrees};
ghost use Rattle.sfc_replay.specs.sfc_debug.Histories.{CommandHistory};
ghost use Rattle.sfc_events.specs.History.{History};
ghost use Rattle.sfc_replay.specs.sfc_debug.Steered.{Steered, steered_by};
ghost use Rattle.sfc_c.specs.Codes as codes;
ghost use Rattle.sfc_c.specs.Handles.{Holds};
ghost use Rattle.sfc_c.specs.Readings as readings;

use crate::handle::Handle;
use crate::number::{flag, told};
use crate::sfc_core::resource::Resource;
use crate::sfc_debug::debugger::Debugger;
use crate::status::{CLOSED, TOO_SHORT};
use sfc_base::ids::VarId;
use std::alloc::Global;

/// What a variable reads: `sfc_variable_state_t` of `sfc.h`.
#[repr(C)]
#[derive(Clone, Copy)]
pub struct VariableState {
    /// BOOL as 0 or 1, a TIME in microseconds.
    pub value: i64,
    /// 1 where the variable is forced; else 0.
    pub forced: i32,
}

// What a variable reads, which is one of the plant's.
fn variable_state(resource: &Resource, id: VarId) -> VariableState
    requires { id.0 < variable_count (plant_of resource.now) }
    ensures { (h : History) → ResourceAgrees resource.now h → result ≡ readings.variable_state (plant_of resource.now) h id.0 }
{
    VariableState {
        value: told(resource.value(id)),
        forced: flag(resource.forced(id).is_some()),
    }
}

// What each variable reads, in the order of their numbers.
fn fill(resource: &Resource, into: &mut [VariableState])
    requires { variable_count (plant_of resource.now) ≤ length into.old }
    ensures { (h : History) → ResourceAgrees resource.now h →
        readings.HasStates (plant_of resource.now) h (variable_count (plant_of resource.now)) into.old into.new }
{
    for k in 0..resource.variables() {
        into[k] = variable_state(resource, VarId(k as u16));
    }
}

// The same where there is room, and else nothing.
fn image_in(debugger: &Debugger, into: &mut [VariableState]) -> i32
    ensures { (h : CommandHistory) → Agrees debugger.now h →
        readings.GivesImage (steered_by debugger.now) h into.old into.new result }
{
    let resource = debugger.resource();
    if into.len() < resource.variables() {
        return TOO_SHORT;
    }
    fill(resource, into);
    0
}

/// What each variable reads and whether it is forced, in the order of their numbers; -6 where the array has less room than there are
/// variables.
#[unsafe(no_mangle)]
pub extern "C" fn sfc_image(alloc: Global, plc: &mut Handle, into: &mut [VariableState]) -> i32
    ensures image { (s : Steered) (h : CommandHistory) → Holds plc.old.value s h →
        readings.GivesImage s h into.old into.new result }
    ensures kept { plc.new.value ≡ plc.old.value }
    ensures closed { plc.old.value ≡ None → result ≡ codes.closed }
{
    match plc.take(alloc) {
        None => CLOSED,
        Some(held) => {
            let code = image_in(held.debugger(), into);
            plc.put(held, alloc);
            code
        }
    }
}
