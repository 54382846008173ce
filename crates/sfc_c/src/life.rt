//! Opening, closing and checking.

ghost use Rattle.std.specs.Prelude.{◌≡◌, [], None, Option, Ok, pos};
ghost use Rattle.sfc_plant.specs.Plants.{PlantData};
ghost use Rattle.sfc_replay.specs.sfc_load.Accepted.{IsAccepted};
ghost use Rattle.sfc_replay.specs.sfc_debug.Steered.{Steered};
ghost use Rattle.sfc_c.specs.declared.fault.Fault.{Fault as FaultData};
ghost use Rattle.sfc_c.specs.Faults as faults;
ghost use Rattle.sfc_c.specs.Faults.{Finds, Refuses, RefusesBoth, SaysConditions};
ghost use Rattle.sfc_c.specs.Handles.{Holds, without_conditions};
ghost use Rattle.sfc_c.specs.Resources.{slots_of};

use crate::fault::{TextFault, number_found, told_fault};
use crate::handle::Handle;
use crate::opening::{fault_of, open, open_with};
use std::alloc::Global;

/// Opens a resource that runs the chart's text, in the place of one that the handle holds. It answers 0; or the number of the text's
/// first fault or -4 where memory was refused, and then the handle is as it was.
#[unsafe(no_mangle)]
pub extern "C" fn sfc_open(alloc: Global, text: &[u8], plc: &mut Handle) -> i32
    ensures opened { result ≡ pos 0 →
        (plant : PlantData) × IsAccepted text.now plant × Holds plc.new.value (without_conditions plant) [] }
    ensures slots { result ≡ pos 0 → slots_of plc.new.value ≡ [] }
    ensures refused { (result ≡ pos 0 → ⊥) → plc.new.value ≡ plc.old.value }
    ensures fault { (result ≡ pos 0 → ⊥) → (fault : FaultData) × Refuses text.now fault × (result ≡ faults.number_of fault) }
{
    match open(alloc, text) {
        Ok(made) => {
            plc.put(made, alloc);
            0
        }
        Err(fault) => fault.number(),
    }
}

/// The same, with conditions that breakpoints may wait for: those that stand behind WHEN in the script, numbered from 0 in the order of
/// its lines. It answers -5 where the script has a line that is no command.
#[unsafe(no_mangle)]
pub extern "C" fn sfc_open_with(alloc: Global, text: &[u8], script: &[u8], plc: &mut Handle) -> i32
    ensures opened { result ≡ pos 0 → (s : Steered) × IsAccepted text.now s.plant
        × SaysConditions s.plant script.now (Ok s.table) × Holds plc.new.value s [] }
    ensures slots { result ≡ pos 0 → slots_of plc.new.value ≡ [] }
    ensures refused { (result ≡ pos 0 → ⊥) → plc.new.value ≡ plc.old.value }
    ensures fault { (result ≡ pos 0 → ⊥) →
        (fault : FaultData) × RefusesBoth text.now script.now fault × (result ≡ faults.number_of fault) }
{
    match open_with(alloc, text, script) {
        Ok(made) => {
            plc.put(made, alloc);
            0
        }
        Err(fault) => fault.number(),
    }
}

/// The first fault of a chart's text, as `sfcmon check` tells it: its number, and where it is; 0 where the text is a chart.
#[unsafe(no_mangle)]
pub extern "C" fn sfc_check(alloc: Global, text: &[u8], into: &mut TextFault) -> i32
    ensures { (found : Option FaultData) × Finds text.now found × (result ≡ faults.number_found found)
        × (into.new ≡ faults.told_fault found) }
{
    let found = fault_of(alloc, text);
    *into = told_fault(found);
    number_found(found)
}

/// Frees the resource, if the handle holds one. A handle that holds none stays so.
#[unsafe(no_mangle)]
pub extern "C" fn sfc_close(alloc: Global, plc: &mut Handle)
    ensures { plc.new.value ≡ None }
{
    drop(plc.take(alloc));
}
