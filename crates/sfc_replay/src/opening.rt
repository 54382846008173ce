//! A chart and a script, opened.

ghost use Rattle.std.specs.Prelude.{◌≡◌, [], Err, IfOk, IfErr};
ghost use Rattle.sfc_output.specs.sfc_core.Agreement as core;
ghost use Rattle.sfc_output.specs.sfc_debug.Agreement.{Agrees, mask_of};
ghost use Rattle.sfc_output.specs.sfc_debug.Steered.{steered_by};
ghost use Rattle.sfc_script.specs.sfc_load.Accepted.{IsAccepted};
ghost use Rattle.sfc_replay.specs.Acceptance.{Accepts};
ghost use Rattle.sfc_replay.specs.Opening.{Opens, OpensFrom};
ghost use Rattle.sfc_replay.specs.Working.Opening.{OpensOn};

use crate::chart::plant_of_text;
use crate::input::read_to_end;
use crate::replay_error::ReplayError;
use crate::sfc_core::resource::Resource;
use crate::sfc_debug::debugger::Debugger;
use crate::sfc_debug::timed::Timed;
use crate::sfc_debug::trace_mask::TraceMask;
use sfc_script::script::{Script, read_script};
use std::alloc::{AllocError, Global};
use std::io::Read;

/// A debugger that was told nothing, and what it is to be told.
#[derive(Drop)]
pub struct Opened {
    /// The debugger of the chart's plant, with the conditions of the script. It keeps no row of its trace.
    pub debugger: Debugger,
    /// The commands of the script, in the order of its lines.
    pub commands: Vec<Timed>,
}

// A resource of the plant that the bytes of a chart are.
fn resource_of_text(alloc: Global, text: &[u8]) -> Result<Resource, ReplayError>
    ensures loaded { IfOk result (λ resource. IsAccepted text.now (core.plant_of resource)) }
    ensures untold { IfOk result (λ resource. core.Agrees resource []) }
    ensures refused { IfErr result (λ error. Accepts text.now (Err error)) }
{
    let plant = plant_of_text(alloc, text)?;
    let resource = Resource::open(alloc, plant)?;
    Ok(resource)
}

/// A debugger of the plant that the bytes of a chart are: without conditions, told nothing. Its trace keeps the newest rows that the mask
/// wants, as many as the capacity, which is from 1 to 65,536. `Chart` is answered where the bytes are refused, `Memory` where memory was.
pub fn debugger_of_text(
    alloc: Global,
    text: &[u8],
    capacity: usize,
    mask: TraceMask,
) -> Result<Debugger, ReplayError>
    ensures loaded { IfOk result (λ debugger. IsAccepted text.now (steered_by debugger).plant) }
    ensures table { IfOk result (λ debugger. (steered_by debugger).table ≡ []) }
    ensures mask { IfOk result (λ debugger. mask_of debugger ≡ mask) }
    ensures untold { IfOk result (λ debugger. Agrees debugger []) }
    ensures refused { IfErr result (λ error. Accepts text.now (Err error)) }
{
    let resource = resource_of_text(alloc, text)?;
    let debugger = Debugger::new(alloc, resource, capacity, mask)?;
    Ok(debugger)
}

// What a script over a resource says, opened.
fn open_said(alloc: Global, resource: Resource, said: Script) -> Result<Opened, AllocError>
    requires untold { core.Agrees resource [] }
    ensures untold { IfOk result (λ opened. Agrees opened.debugger []) }
    ensures steered { IfOk result (λ opened.
        steered_by opened.debugger ≡ record { plant = core.plant_of resource; table = said.conditions.items }) }
    ensures commands { IfOk result (λ opened. opened.commands ≡ said.commands) }
{
    let (commands, conditions) = said.into_parts();
    let debugger = Debugger::with_conditions(alloc, resource, 1, TraceMask(0), conditions)?;
    Ok(Opened { debugger, commands })
}

// A script over a resource, opened.
fn open_script(alloc: Global, resource: Resource, script: &[u8]) -> Result<Opened, ReplayError>
    requires untold { core.Agrees resource [] }
    ensures { OpensOn (core.plant_of resource) script.now result }
{
    let said = read_script(alloc, &resource, script)?;
    let opened = open_said(alloc, resource, said)?;
    Ok(opened)
}

/// The debugger of the plant that the bytes of a chart are, with the conditions of a script, and the commands of the script.
///
/// `Chart` is answered where the chart is refused, and then `Script` where the script is refused over its names; `Memory` where memory was
/// refused.
pub fn open_both(alloc: Global, chart: &[u8], script: &[u8]) -> Result<Opened, ReplayError>
    ensures { Opens chart.now script.now result }
{
    let resource = resource_of_text(alloc, chart)?;
    open_script(alloc, resource, script)
}

/// The same of a chart and a script that are read. The chart is read and loaded first, and then the script is read.
///
/// At most 1,048,577 bytes are taken from each reader, and none of the script where the chart is refused. The errors are those of `open_both`,
/// and `Read` where a reader failed.
pub fn open_from<C: Read, S: Read>(
    alloc: Global,
    chart: &mut C,
    script: &mut S,
) -> Result<Opened, ReplayError>
    ensures { OpensFrom (C.remaining chart.old, C.remaining chart.new) (S.remaining script.old, S.remaining script.new) result }
{
    let text = read_to_end(alloc, chart)?;
    let resource = resource_of_text(alloc, &text)?;
    let bytes = read_to_end(alloc, script)?;
    open_script(alloc, resource, &bytes)
}
