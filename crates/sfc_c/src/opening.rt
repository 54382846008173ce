//! Texts to debuggers.

ghost use Rattle.std.specs.Prelude.{◌≡◌, [], IfOk, IfErr, Ok};
ghost use Rattle.sfc_replay.specs.sfc_debug.Agreement.{Agrees};
ghost use Rattle.sfc_replay.specs.sfc_load.Accepted.{IsAccepted};
ghost use Rattle.sfc_c.specs.Faults as faults;
ghost use Rattle.sfc_c.specs.Resources.{Stands, debugger_in, slots_in, steered_in};
ghost use Rattle.sfc_c.specs.Faults.{Finds, Refuses, RefusesBoth, SaysConditions};

use crate::fault::Fault;
use crate::plc::Plc;
use crate::sfc_debug::debugger::Debugger;
use crate::sfc_debug::trace_mask::TraceMask;
use sfc_replay::chart::plant_of_text;
use sfc_replay::opening::{Opened, debugger_of_text, open_both};
use sfc_replay::replay_error::{ChartError, ReplayError};
use std::alloc::Global;

// What a chart or a script is refused for, as C is told of it. No device is read or written here.
fn fault_by(error: ReplayError) -> Fault
    ensures { result ≡ faults.fault_by error }
{
    match error {
        ReplayError::Chart(ChartError::Read(error)) => Fault::Read(error),
        ReplayError::Chart(ChartError::Load(error)) => Fault::Load(error),
        ReplayError::Script(_) => Fault::Line,
        ReplayError::Read | ReplayError::Write | ReplayError::Memory => Fault::Memory,
    }
}

/// The first fault of a text, as `sfcmon check` tells it, if it has one.
#[tactic(auto, using(crate::proofs::Refused::refused))]
pub fn fault_of(alloc: Global, text: &[u8]) -> Option<Fault>
    ensures { Finds text.now result }
{
    match plant_of_text(alloc, text) {
        Ok(_) => None,
        Err(error) => Some(fault_by(error)),
    }
}

// A resource with this debugger, on the heap.
fn boxed(alloc: Global, debugger: Debugger) -> Result<Box<Plc>, Fault>
    ensures debugger { IfOk result (λ made. debugger_in made.value ≡ debugger) }
    ensures stands { Agrees debugger [] → IfOk result (λ made. Stands made.value []) }
    ensures slots { IfOk result (λ made. slots_in made.value ≡ []) }
    ensures fault { IfErr result (λ fault. fault ≡ faults.out_of_memory) }
{
    match Box::new(alloc, Plc::new(alloc, debugger)) {
        Ok(made) => Ok(made),
        Err(_) => Err(Fault::Memory),
    }
}

/// A resource that runs the plant that the text is, without conditions; or the text's first fault.
#[tactic(auto, using(crate::proofs::Refused::refused))]
pub fn open(alloc: Global, text: &[u8]) -> Result<Box<Plc>, Fault>
    ensures opened { IfOk result (λ made. IsAccepted text.now (steered_in made.value).plant) }
    ensures table { IfOk result (λ made. (steered_in made.value).table ≡ []) }
    ensures stands { IfOk result (λ made. Stands made.value []) }
    ensures slots { IfOk result (λ made. slots_in made.value ≡ []) }
    ensures fault { IfErr result (λ fault. Refuses text.now fault) }
{
    match debugger_of_text(alloc, text, 1, TraceMask(0)) {
        Ok(debugger) => boxed(alloc, debugger),
        Err(error) => Err(fault_by(error)),
    }
}

/// The same with the conditions that stand behind WHEN in a script, in the order of its lines; or the text's first fault, or Line where
/// the script has a line that is no command.
#[tactic(auto, using(crate::proofs::Refused::both_refused))]
pub fn open_with(alloc: Global, text: &[u8], script: &[u8]) -> Result<Box<Plc>, Fault>
    ensures opened { IfOk result (λ made. IsAccepted text.now (steered_in made.value).plant) }
    ensures table { IfOk result (λ made. SaysConditions (steered_in made.value).plant script.now (Ok (steered_in made.value).table)) }
    ensures stands { IfOk result (λ made. Stands made.value []) }
    ensures slots { IfOk result (λ made. slots_in made.value ≡ []) }
    ensures fault { IfErr result (λ fault. RefusesBoth text.now script.now fault) }
{
    match open_both(alloc, text, script) {
        Ok(opened) => {
            let Opened {
                debugger,
                commands: _,
            } = opened;
            boxed(alloc, debugger)
        }
        Err(error) => Err(fault_by(error)),
    }
}
