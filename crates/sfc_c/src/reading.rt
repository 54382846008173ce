//! What is read without a command: nothing changes, and no instant is wanted.

ghost use Rattle.std.specs.Prelude.{◌≡◌, List, None, pos};
ghost use Rattle.sfc_replay.specs.sfc_image.Changes.{Change};
ghost use Rattle.sfc_replay.specs.sfc_instance.Life.{InstanceState};
ghost use Rattle.sfc_replay.specs.sfc_instance.Views.{Shows, tables_in};
ghost use Rattle.sfc_replay.specs.sfc_debug.Agreement.{Agrees};
ghost use Rattle.sfc_replay.specs.sfc_debug.Histories.{CommandHistory};
ghost use Rattle.sfc_replay.specs.sfc_debug.Steered.{Steered, steered_by};
ghost use Rattle.sfc_c.specs.Codes as codes;
ghost use Rattle.sfc_c.specs.Handles.{Holds};
ghost use Rattle.sfc_c.specs.Readings as readings;

use crate::handle::Handle;
use crate::number::{flag, told};
use crate::placed::{number_in, place_kind, statement_in};
use crate::sfc_debug::debugger::Debugger;
use crate::sfc_debug::mode::Mode;
use crate::sfc_instance::program_view::ProgramView;
use crate::sfc_instance::scan_fault::ScanFault;
use crate::status::{CLOSED, UNKNOWN};
use sfc_base::ids::{ProgId, VarId};
use std::alloc::Global;

/// How a resource stands: `sfc_status_t` of `sfc.h`.
#[repr(C)]
#[derive(Clone, Copy)]
pub struct Status {
    /// The run instant of the latest accepted command, in microseconds; 0 before the first.
    pub instant: i64,
    /// How many commands were accepted.
    pub accepted: u64,
    /// 0 for running, 1 for halted, 2 for ended.
    pub mode: i32,
}

/// How a program instance stands: `sfc_program_state_t` of `sfc.h`.
#[repr(C)]
#[derive(Clone, Copy)]
pub struct ProgramState {
    /// How many scans its life has had; at most 2^64 - 1.
    pub scans: u64,
    /// The fault that ended a scan since its latest reset: 1 to 5 in the order of docs/FORMATS.md; 0 for none.
    pub fault: i32,
    /// In what that fault is: 1 in the condition of a transition, 2 in the control block of an action, 3 in a statement of the body of a
    /// declared action; 0 for none.
    pub place: i32,
    /// The number of that transition or action; -3 for one above 65,535, and -1 for none.
    pub number: i32,
    /// The statement of the body, counted from 1, at most 2^31 - 1; else 0. What stands in an IF is part of it.
    pub statement: i32,
}

// What the variable reads, if there is one with this number.
fn value_in(debugger: &Debugger, id: VarId) -> Option<i64>
    ensures { (h : CommandHistory) → Agrees debugger.now h → result ≡ readings.told_value (steered_by debugger.now) h id }
{
    let resource = debugger.resource();
    if (id.0 as usize) < resource.variables() {
        return Some(told(resource.value(id)));
    }
    None
}

/// What the variable reads: BOOL as 0 or 1, a TIME in microseconds.
#[unsafe(no_mangle)]
pub extern "C" fn sfc_value(alloc: Global, plc: &mut Handle, var: u16, into: &mut i64) -> i32
    ensures value { (s : Steered) (h : CommandHistory) → Holds plc.old.value s h →
        readings.Gives (readings.told_value s h (record { 0 = var })) into.old into.new result }
    ensures kept { plc.new.value ≡ plc.old.value }
    ensures closed { plc.old.value ≡ None → result ≡ codes.closed }
{
    match plc.read(alloc, |debugger| value_in(debugger, VarId(var))) {
        None => CLOSED,
        Some(None) => UNKNOWN,
        Some(Some(n)) => {
            *into = n;
            0
        }
    }
}

// Whether the variable is forced: 1 or 0, if there is one with this number.
fn forced_in(debugger: &Debugger, id: VarId) -> i32
    ensures { (h : CommandHistory) → Agrees debugger.now h → result ≡ readings.told_forced (steered_by debugger.now) h id }
{
    let resource = debugger.resource();
    if (id.0 as usize) < resource.variables() {
        return flag(resource.forced(id).is_some());
    }
    UNKNOWN
}

/// Whether the variable is forced: 1 or 0.
#[unsafe(no_mangle)]
pub extern "C" fn sfc_forced(alloc: Global, plc: &mut Handle, var: u16) -> i32
    ensures forced { (s : Steered) (h : CommandHistory) → Holds plc.old.value s h →
        result ≡ readings.told_forced s h (record { 0 = var }) }
    ensures kept { plc.new.value ≡ plc.old.value }
    ensures closed { plc.old.value ≡ None → result ≡ codes.closed }
{
    match plc.read(alloc, |debugger| forced_in(debugger, VarId(var))) {
        None => CLOSED,
        Some(forced) => forced,
    }
}

// The number of a mode.
fn mode_number(mode: Mode) -> i32
    ensures { result ≡ codes.mode_number mode }
{
    match mode {
        Mode::Running => 0,
        Mode::Stopped => 1,
        Mode::Ended => 2,
    }
}

// How the debugger stands.
fn status_of(debugger: &Debugger) -> Status
    ensures { (h : CommandHistory) → Agrees debugger.now h → result ≡ readings.status_of (steered_by debugger.now) h }
{
    Status {
        instant: debugger.run_instant(),
        accepted: debugger.accepted(),
        mode: mode_number(debugger.mode()),
    }
}

/// How the resource stands: its run instant, how many commands it accepted, and its mode.
#[unsafe(no_mangle)]
pub extern "C" fn sfc_status(alloc: Global, plc: &mut Handle, into: &mut Status) -> i32
    ensures status { (s : Steered) (h : CommandHistory) → Holds plc.old.value s h →
        (result ≡ pos 0) × (into.new ≡ readings.status_of s h) }
    ensures kept { plc.new.value ≡ plc.old.value }
    ensures closed { plc.old.value ≡ None → result ≡ codes.closed }
{
    match plc.read(alloc, |debugger| status_of(debugger)) {
        None => CLOSED,
        Some(status) => {
            *into = status;
            0
        }
    }
}

// The number of a fault of a scan.
fn scan_fault_number(fault: Option<ScanFault>) -> i32
    ensures { result ≡ readings.scan_fault_number fault }
{
    match fault {
        None => 0,
        Some(fault) => i32::from(fault.number()),
    }
}

// How a program instance stands, by its window.
fn state_of(view: &ProgramView<'_>) -> ProgramState
    ensures { (changes : List Change) (instance_state : InstanceState) → Shows view.now changes instance_state →
        result ≡ readings.state_in (tables_in view.now) instance_state }
{
    let place = view.fault_place();
    ProgramState {
        scans: view.scans(),
        fault: scan_fault_number(view.fault()),
        place: place_kind(place),
        number: number_in(view, place),
        statement: statement_in(place),
    }
}

// How a program instance stands, if there is one with this number.
fn program_in(debugger: &Debugger, program: ProgId) -> Option<ProgramState>
    ensures { (h : CommandHistory) → Agrees debugger.now h → result ≡ readings.program_state (steered_by debugger.now) h program }
{
    let resource = debugger.resource();
    if (program.0 as usize) >= resource.plant().instances().len() {
        return None;
    }
    Some(state_of(&resource.program(program)))
}

/// How a program instance stands: how many scans its life has had, its fault, and where that is.
#[unsafe(no_mangle)]
pub extern "C" fn sfc_program_state(
    alloc: Global,
    plc: &mut Handle,
    program: u8,
    into: &mut ProgramState,
) -> i32
    ensures state { (s : Steered) (h : CommandHistory) → Holds plc.old.value s h →
        readings.Gives (readings.program_state s h (record { 0 = program })) into.old into.new result }
    ensures kept { plc.new.value ≡ plc.old.value }
    ensures closed { plc.old.value ≡ None → result ≡ codes.closed }
{
    match plc.read(alloc, |debugger| program_in(debugger, ProgId(program))) {
        None => CLOSED,
        Some(None) => UNKNOWN,
        Some(Some(state)) => {
            *into = state;
            0
        }
    }
}
