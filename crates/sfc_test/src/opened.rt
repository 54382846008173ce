//! Files of tests over a chart.

ghost use Rattle.std.specs.Prelude.{◌≡◌, [], Err, IfErr, IfOk};
ghost use Rattle.sfc_judge.specs.Running.Benches.{IsReady, steered_in};
ghost use Rattle.sfc_replay.specs.Acceptance.{Accepts};
ghost use Rattle.sfc_replay.specs.sfc_core.Agreement as core;
ghost use Rattle.sfc_replay.specs.sfc_load.Accepted.{IsAccepted};
ghost use Rattle.sfc_test.specs.Opening.{OpensTests};

use crate::sfc_core::resource::Resource;
use crate::sfc_debug::debugger::Debugger;
use crate::sfc_debug::trace_mask::TraceMask;
use sfc_cases::line::Line;
use sfc_cases::sources::Sources;
use sfc_cases::test_file::{TestFile, read_tests};
use sfc_judge::bench::Bench;
use sfc_replay::chart::plant_of_text;
use sfc_replay::replay_error::ReplayError;
use std::alloc::{AllocError, Global};

/// A file of tests: its name, its text, and in which files the lines of that stand.
#[derive(Clone, Copy)]
pub struct File<'a> {
    pub name: &'a [u8],
    pub text: &'a [u8],
    pub sources: &'a Sources,
}

/// Tests over a chart.
#[derive(Drop)]
pub struct Opened {
    /// A debugger of the chart's plant, with the conditions of breakpoints that the tests have.
    pub bench: Bench,
    /// Their lines that do something, in order.
    pub lines: Vec<Line>,
    /// The byte at which each of them begins.
    pub places: Vec<usize>,
}

// A resource of the plant that a chart is.
fn resource_of(alloc: Global, chart: &[u8]) -> Result<Resource, ReplayError>
    ensures loaded { IfOk result (λ resource. IsAccepted chart.now (core.plant_of resource)) }
    ensures untold { IfOk result (λ resource. core.Agrees resource []) }
    ensures refused { IfErr result (λ error. Accepts chart.now (Err error)) }
{
    let plant = plant_of_text(alloc, chart)?;
    let resource = Resource::open(alloc, plant)?;
    Ok(resource)
}

// What tests over a resource say, opened.
fn open_said(alloc: Global, resource: Resource, file: TestFile) -> Result<Opened, AllocError>
    requires untold { core.Agrees resource [] }
    ensures ready { IfOk result (λ opened. IsReady opened.bench) }
    ensures steered { IfOk result (λ opened.
        steered_in opened.bench ≡ record { plant = core.plant_of resource; table = file.table.items }) }
    ensures lines { IfOk result (λ opened. opened.lines ≡ file.lines) }
{
    let (lines, places, table) = file.into_parts();
    let debugger = Debugger::with_conditions(alloc, resource, 1, TraceMask(0), table)?;
    let bench = Bench::new(alloc, debugger)?;
    Ok(Opened {
        bench,
        lines,
        places,
    })
}

/// The tests that a text says over the chart. `Chart` is answered where the chart is refused, `Script` where a line of the text can't be
/// read, `Memory` where memory was refused.
pub fn open_tests(alloc: Global, chart: &[u8], text: &[u8]) -> Result<Opened, ReplayError>
    ensures ready { IfOk result (λ opened. IsReady opened.bench) }
    ensures opens { OpensTests chart.now text.now result }
{
    let resource = resource_of(alloc, chart)?;
    let file = read_tests(alloc, &resource, text)?;
    let opened = open_said(alloc, resource, file)?;
    Ok(opened)
}
