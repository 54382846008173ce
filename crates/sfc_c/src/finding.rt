//! Numbers by names; case is not significant (2.1.2).

ghost use Rattle.std.specs.Prelude.{◌≡◌, None};
ghost use Rattle.sfc_plant.specs.Finding.{task_named, instance_named};
ghost use Rattle.sfc_replay.specs.sfc_debug.Agreement.{plant_of};
ghost use Rattle.sfc_replay.specs.sfc_debug.Histories.{CommandHistory};
ghost use Rattle.sfc_replay.specs.sfc_debug.Steered.{Steered};
ghost use Rattle.sfc_c.specs.Codes as codes;
ghost use Rattle.sfc_c.specs.Handles.{Holds};
ghost use Rattle.sfc_c.specs.Found.{number_of_place, number_of_task, number_of_program};
ghost use Rattle.sfc_c.specs.Names as names;

use crate::handle::Handle;
use crate::kind::{Kind, kind_of};
use crate::locating::{begins_location, number_of_location};
use crate::number::{place_number, program_number, task_number, variable_number};
use crate::sfc_debug::debugger::Debugger;
use crate::sfc_script::point::find_action;
use crate::status::CLOSED;
use sfc_base::ids::{ProgId, TaskId};
use std::alloc::Global;

// The number of the variable that is called so, or lies there.
fn variable_in(alloc: Global, debugger: &Debugger, text: &[u8]) -> i32
    ensures { names.VariableFinds (plant_of debugger.now) text.now result }
{
    if begins_location(text) {
        return number_of_location(alloc, debugger.resource(), text);
    }
    variable_number(debugger.resource().plant().find_variable(text))
}

// The number of a point of a program instance's chart, if there is one of the kind with this name.
fn point_in(debugger: &Debugger, program: ProgId, kind: Option<Kind>, name: &[u8]) -> Option<usize>
    ensures { result ≡ names.point_named (plant_of debugger.now) program kind name.now }
{
    let resource = debugger.resource();
    match kind {
        Some(Kind::Step) => Some(resource.plant().find_step(program, name)?.0 as usize),
        Some(Kind::Transition) => Some(resource.plant().find_transition(program, name)?.0 as usize),
        Some(Kind::Action) => Some(find_action(resource, program, name)?.0),
        _ => None,
    }
}

/// The number of a variable: `NAME` of a global one, `INST.NAME` of one that the program instance declares for itself, or its location,
/// as `%IX0.0`; -3 where there is none. -4 where memory was refused, which only a location asks for.
#[unsafe(no_mangle)]
pub extern "C" fn sfc_variable(alloc: Global, plc: &mut Handle, name: &[u8]) -> i32
    ensures number { (s : Steered) (h : CommandHistory) → Holds plc.old.value s h →
        names.VariableFinds s.plant name.now result }
    ensures kept { plc.new.value ≡ plc.old.value }
    ensures closed { plc.old.value ≡ None → result ≡ codes.closed }
{
    match plc.read(alloc, |debugger| variable_in(alloc, debugger, name)) {
        None => CLOSED,
        Some(number) => number,
    }
}

// The task with this name, if there is one.
fn task_in(debugger: &Debugger, name: &[u8]) -> Option<TaskId>
    ensures { result ≡ task_named (plant_of debugger.now) name.now }
{
    debugger.resource().plant().find_task(name)
}

/// The number of the task with this name; -3 where there is none.
#[unsafe(no_mangle)]
pub extern "C" fn sfc_task(alloc: Global, plc: &mut Handle, name: &[u8]) -> i32
    ensures number { (s : Steered) (h : CommandHistory) → Holds plc.old.value s h →
        result ≡ number_of_task (task_named s.plant name.now) }
    ensures kept { plc.new.value ≡ plc.old.value }
    ensures closed { plc.old.value ≡ None → result ≡ codes.closed }
{
    match plc.read(alloc, |debugger| task_in(debugger, name)) {
        None => CLOSED,
        Some(found) => task_number(found),
    }
}

// The program instance with this name, if there is one.
fn program_in(debugger: &Debugger, name: &[u8]) -> Option<ProgId>
    ensures { result ≡ instance_named (plant_of debugger.now) name.now }
{
    debugger.resource().plant().find_instance(name)
}

/// The number of the program instance with this name; -3 where there is none.
#[unsafe(no_mangle)]
pub extern "C" fn sfc_program(alloc: Global, plc: &mut Handle, name: &[u8]) -> i32
    ensures number { (s : Steered) (h : CommandHistory) → Holds plc.old.value s h →
        result ≡ number_of_program (instance_named s.plant name.now) }
    ensures kept { plc.new.value ≡ plc.old.value }
    ensures closed { plc.old.value ≡ None → result ≡ codes.closed }
{
    match plc.read(alloc, |debugger| program_in(debugger, name)) {
        None => CLOSED,
        Some(found) => program_number(found),
    }
}

/// The number of the step, the transition or the first action with this name in the chart of a program instance, by its kind; -3 where
/// there is none.
#[unsafe(no_mangle)]
pub extern "C" fn sfc_point(
    alloc: Global,
    plc: &mut Handle,
    program: u8,
    kind: u8,
    name: &[u8],
) -> i32
    ensures number { (s : Steered) (h : CommandHistory) → Holds plc.old.value s h →
        result ≡ number_of_place (names.point_named s.plant (record { 0 = program }) (names.kind_of kind) name.now) }
    ensures kept { plc.new.value ≡ plc.old.value }
    ensures closed { plc.old.value ≡ None → result ≡ codes.closed }
{
    match plc.read(
        alloc,
        |debugger| point_in(debugger, ProgId(program), kind_of(kind), name),
    ) {
        None => CLOSED,
        Some(found) => place_number(found),
    }
}
