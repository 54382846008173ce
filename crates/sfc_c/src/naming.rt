//! Counts and names; names as they were declared (2.1.2).

ghost use Rattle.std.specs.Prelude.{◌≡◌, ◌<◌, ◌++◌, None, Some, length, OnOk, true};
ghost use Rattle.sfc_plant.specs.Finding.{chart_of};
ghost use Rattle.sfc_replay.specs.sfc_core.Agreement as core;
ghost use Rattle.sfc_replay.specs.sfc_debug.Agreement.{plant_of};
ghost use Rattle.sfc_replay.specs.sfc_debug.Histories.{CommandHistory};
ghost use Rattle.sfc_replay.specs.sfc_debug.Steered.{Steered};
ghost use Rattle.sfc_c.specs.Codes as codes;
ghost use Rattle.sfc_c.specs.Found.{number_of_place};
ghost use Rattle.sfc_c.specs.Handles.{Holds};
ghost use Rattle.sfc_c.specs.Names as names;
ghost use Rattle.sfc_c.specs.Texts.{GivesOr, IsNone, Tells};

use crate::giving::give_or;
use crate::handle::Handle;
use crate::kind::{Kind, kind_of};
use crate::number::place_number;
use crate::sfc_core::resource::Resource;
use crate::sfc_debug::debugger::Debugger;
use crate::sfc_output::naming::append_image_name;
use crate::status::{CLOSED, NO_MEMORY, UNKNOWN};
use sfc_base::ids::{ActionNumber, ProgId, VarId};
use sfc_base::name::Name;
use sfc_base::references::StepId;
use sfc_page::append::append;
use sfc_plant::names::{instance_name, task_name};
use sfc_plant::plant::Plant;
use std::alloc::{AllocError, Global};

// How many points of a kind a program instance's chart has, if the instance is there.
fn points_in(resource: &Resource, program: ProgId, kind: Kind) -> Option<usize>
    ensures { result ≡ names.points_of (core.plant_of resource.now) program kind }
{
    if program.0 as usize >= resource.plant().instances().len() {
        return None;
    }
    let tables = resource.program(program).tables();
    match kind {
        Kind::Step => Some(tables.steps()),
        Kind::Transition => Some(tables.transitions()),
        _ => Some(tables.actions()),
    }
}

// How many there are of a kind.
fn count_of(resource: &Resource, program: ProgId, kind: Kind) -> Option<usize>
    ensures { result ≡ names.count_of (core.plant_of resource.now) program kind }
{
    match kind {
        Kind::Variable => Some(resource.variables()),
        Kind::Task => Some(resource.plant().tasks().len()),
        Kind::Program => Some(resource.plant().instances().len()),
        _ => points_in(resource, program, kind),
    }
}

// How many there are of a kind, if it is one.
fn count_in(debugger: &Debugger, program: ProgId, kind: Option<Kind>) -> Option<usize>
    ensures { result ≡ names.count_in (plant_of debugger.now) program kind }
{
    match kind {
        Some(kind) => count_of(debugger.resource(), program, kind),
        None => None,
    }
}

/// How many there are of a kind: of steps, transitions and actions those in the chart of a program instance; -3 where that isn't there, or
/// there is no such kind.
#[unsafe(no_mangle)]
pub extern "C" fn sfc_count(alloc: Global, plc: &mut Handle, kind: u8, program: u8) -> i32
    ensures count { (s : Steered) (h : CommandHistory) → Holds plc.old.value s h →
        result ≡ number_of_place (names.count_in s.plant (record { 0 = program }) (names.kind_of kind)) }
    ensures kept { plc.new.value ≡ plc.old.value }
    ensures closed { plc.old.value ≡ None → result ≡ codes.closed }
{
    match plc.read(
        alloc,
        |debugger| count_in(debugger, ProgId(program), kind_of(kind)),
    ) {
        None => CLOSED,
        Some(count) => place_number(count),
    }
}

// A name, or nothing.
fn spelling(name: &Option<Name>) -> &[u8]
    ensures { result.now ≡ names.name_or_nothing name.now }
{
    match name {
        Some(name) => name.spelling(),
        None => b"",
    }
}

// The name of a transition; nothing where it has none.
fn transition_name(plant: &Plant, program: ProgId, number: usize) -> &[u8]
    ensures { result.now ≡ names.transition_name_of plant.now program number }
{
    let Some(program_type) = plant.type_of(program) else {
        return b"";
    };
    match program_type.chart.transitions.as_slice().get(number) {
        Some(transition) => spelling(&transition.name),
        None => b"",
    }
}

// The name of a point of a program instance's chart.
fn append_point_name(
    out: &mut Vec<u8>,
    resource: &Resource,
    program: ProgId,
    kind: Kind,
    number: u16,
) -> Result<(), AllocError>
    requires { names.has (names.points_of (core.plant_of resource.now) program kind) number ≡ true }
    ensures { OnOk result (out.new.items ≡ out.old.items ++ names.point_name (core.plant_of resource.now) program kind number) }
{
    let plant = resource.plant();
    match kind {
        Kind::Step => append(out, plant.names(program).step(StepId(number))),
        Kind::Transition => append(out, transition_name(plant, program, number as usize)),
        _ => {
            let tables = resource.program(program).tables();
            let action = ActionNumber(number as usize);
            append(out, tables.action_name(&plant.names(program), action))
        }
    }
}

// The name of number n of a kind, which is there.
fn append_name(
    out: &mut Vec<u8>,
    resource: &Resource,
    program: ProgId,
    kind: Kind,
    number: u16,
) -> Result<(), AllocError>
    requires { names.has (names.count_of (core.plant_of resource.now) program kind) number ≡ true }
    ensures { OnOk result (out.new.items ≡ out.old.items ++ names.name_of (core.plant_of resource.now) program kind number) }
{
    let plant = resource.plant();
    match kind {
        Kind::Variable => append_image_name(out, plant, VarId(number)),
        Kind::Task => append(out, task_name(plant.tasks(), number as usize)),
        Kind::Program => append(out, instance_name(plant.instances(), number as usize)),
        _ => append_point_name(out, resource, program, kind, number),
    }
}

// Whether there are more than so many.
fn has(count: Option<usize>, number: u16) -> bool
    ensures { result ≡ names.has count number }
{
    match count {
        Some(count) => (number as usize) < count,
        None => false,
    }
}

// The name of number n of a kind; -3 where there is none, -4 where memory was refused.
fn name_in(
    alloc: Global,
    debugger: &Debugger,
    program: ProgId,
    kind: Option<Kind>,
    number: u16,
) -> Result<Vec<u8>, i32>
    ensures { Tells (λ name. name.items) (names.named (plant_of debugger.now) program kind number) result }
{
    let resource = debugger.resource();
    let Some(kind) = kind else {
        return Err(UNKNOWN);
    };
    if !has(count_of(resource, program, kind), number) {
        return Err(UNKNOWN);
    }
    let mut name = Vec::new(alloc);
    match append_name(&mut name, resource, program, kind, number) {
        Ok(()) => Ok(name),
        Err(_) => Err(NO_MEMORY),
    }
}

/// The name of number n of a kind, as it was declared: of a step, a transition or an action in the chart of a program instance, of a
/// variable (INST.NAME of a local one), a task or a program instance. -3 where there is none, -4 where memory was refused, -6 where the
/// buffer is too short; `needed` tells the length.
#[unsafe(no_mangle)]
pub extern "C" fn sfc_name(
    alloc: Global,
    plc: &mut Handle,
    kind: u8,
    program: u8,
    number: u16,
    into: &mut [u8],
    needed: &mut usize,
) -> i32
    ensures name { (s : Steered) (h : CommandHistory) → Holds plc.old.value s h →
        GivesOr (names.named s.plant (record { 0 = program }) (names.kind_of kind) number) into.old into.new needed.new result }
    ensures kept { plc.new.value ≡ plc.old.value }
    ensures closed { plc.old.value ≡ None → IsNone codes.closed into.old into.new needed.new result }
{
    let kind = kind_of(kind);
    let name = plc.read(alloc, |debugger| {
        name_in(alloc, debugger, ProgId(program), kind, number)
    });
    give_or(name.unwrap_or(Err(CLOSED)), into, needed)
}
