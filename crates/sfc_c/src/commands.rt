//! Commands by number: events, breakpoints, halts, single scans.

ghost use Rattle.std.specs.Prelude.{◌≡◌, None, Some, is_some, true};
ghost use Rattle.sfc_base.specs.declared.value.Value.{Value as ValueData};
ghost use Rattle.sfc_events.specs.declared.command.Command.TheVariants as commands;
ghost use Rattle.sfc_events.specs.declared.command.Point.{Point as PointData};
ghost use Rattle.sfc_replay.specs.sfc_debug.Agreement.{plant_of};
ghost use Rattle.sfc_replay.specs.sfc_debug.Histories.{CommandHistory};
ghost use Rattle.sfc_replay.specs.sfc_debug.Steered.{Steered};
ghost use Rattle.sfc_c.specs.Codes as codes;
ghost use Rattle.sfc_c.specs.Handles.{Answers, Follows, Holds, Replies};
ghost use Rattle.sfc_c.specs.Resources.{slots_of};

use crate::handle::Handle;
use crate::number::value_of_number;
use crate::point::{break_of, point_of};
use crate::reply::{NOTHING, Reply, code, telling};
use crate::sfc_debug::debugger::Debugger;
use crate::sfc_debug::timed::Timed;
use crate::status::{CLOSED, NO_VALUE, UNKNOWN};
use sfc_base::ids::{ProgId, TaskId, VarId};
use sfc_base::value::Value;
use sfc_base::var_type::VarType;
use sfc_events::command::Command;
use sfc_plant::plant::Plant;
use std::alloc::Global;

// One command at the raw instant t, in microseconds, to the debugger that a handle holds.
fn tell(alloc: Global, plc: &mut Handle, command: Command, t: i64, into: &mut Reply) -> i32
    ensures code { Answers plc.old.value command t result }
    ensures reply { Replies plc.old.value command t into.new }
    ensures kept { Follows plc.old.value plc.new.value command t }
    ensures slots { slots_of plc.new.value ≡ slots_of plc.old.value }
    ensures closed { plc.old.value ≡ None → result ≡ codes.closed }
{
    match plc.change(alloc, |plc| plc.obey(Timed { command, raw: t })) {
        None => CLOSED,
        Some(answered) => {
            *into = telling(answered);
            code(answered)
        }
    }
}

// The same, where nothing is told but the code.
fn order(alloc: Global, plc: &mut Handle, command: Command, t: i64) -> i32
    ensures code { Answers plc.old.value command t result }
    ensures kept { Follows plc.old.value plc.new.value command t }
    ensures slots { slots_of plc.new.value ≡ slots_of plc.old.value }
    ensures closed { plc.old.value ≡ None → result ≡ codes.closed }
{
    let mut into = NOTHING;
    tell(alloc, plc, command, t, &mut into)
}

// The type of a variable, if there is one with this number.
fn type_of(plant: &Plant, id: VarId) -> Option<VarType>
    ensures { result ≡ codes.type_of plant.now id }
{
    let variable = plant.variable(id)?;
    Some(variable.var_type)
}

// The value of the variable's type that the number is told as, if there is one.
fn value_in(debugger: &Debugger, id: VarId, n: i64) -> Option<Value>
    ensures { result ≡ codes.value_of_number (codes.type_of (plant_of debugger.now) id) n }
{
    value_of_number(type_of(debugger.resource().plant(), id), n)
}

// The same of the debugger that a handle holds; any value where it holds none.
fn value_at(alloc: Global, plc: &mut Handle, id: VarId, n: i64) -> Option<Value>
    ensures value { (s : Steered) (h : CommandHistory) → Holds plc.old.value s h →
        result ≡ codes.value_of_number (codes.type_of s.plant id) n }
    ensures kept { plc.new.value ≡ plc.old.value }
    ensures closed { plc.old.value ≡ None → is_some result ≡ true }
{
    match plc.read(alloc, |debugger| value_in(debugger, id, n)) {
        None => Some(Value::Bool(false)),
        Some(value) => value,
    }
}

/// A scan of a task that is due (2.7.2), at the raw instant t in microseconds.
#[unsafe(no_mangle)]
pub extern "C" fn sfc_scan(
    alloc: Global,
    plc: &mut Handle,
    task: u8,
    t: i64,
    into: &mut Reply,
) -> i32
    ensures code { Answers plc.old.value (commands.Scan (record { 0 = task })) t result }
    ensures reply { Replies plc.old.value (commands.Scan (record { 0 = task })) t into.new }
    ensures kept { Follows plc.old.value plc.new.value (commands.Scan (record { 0 = task })) t }
    ensures slots { slots_of plc.new.value ≡ slots_of plc.old.value }
    ensures closed { plc.old.value ≡ None → result ≡ codes.closed }
{
    tell(alloc, plc, Command::Scan(TaskId(task)), t, into)
}

/// While halted, one scan of a task, whether it is due or not, `delta` microseconds later.
#[unsafe(no_mangle)]
pub extern "C" fn sfc_single(
    alloc: Global,
    plc: &mut Handle,
    task: u8,
    delta: i64,
    t: i64,
    into: &mut Reply,
) -> i32
    ensures code { Answers plc.old.value (commands.Single (record { 0 = task }) delta) t result }
    ensures reply { Replies plc.old.value (commands.Single (record { 0 = task }) delta) t into.new }
    ensures kept { Follows plc.old.value plc.new.value (commands.Single (record { 0 = task }) delta) t }
    ensures slots { slots_of plc.new.value ≡ slots_of plc.old.value }
    ensures closed { plc.old.value ≡ None → result ≡ codes.closed }
{
    tell(alloc, plc, Command::Single(TaskId(task), delta), t, into)
}

/// A value for a variable that is located at an input (2.4.1.1): BOOL as 0 or 1, a TIME in microseconds.
#[unsafe(no_mangle)]
pub extern "C" fn sfc_input(alloc: Global, plc: &mut Handle, var: u16, value: i64, t: i64) -> i32
    ensures code { (s : Steered) (h : CommandHistory) (v : ValueData) → Holds plc.old.value s h →
        codes.value_of_number (codes.type_of s.plant (record { 0 = var })) value ≡ Some v →
        Answers plc.old.value (commands.Input (record { 0 = var }) v) t result }
    ensures kept { (s : Steered) (h : CommandHistory) (v : ValueData) → Holds plc.old.value s h →
        codes.value_of_number (codes.type_of s.plant (record { 0 = var })) value ≡ Some v →
        Follows plc.old.value plc.new.value (commands.Input (record { 0 = var }) v) t }
    ensures no_value { (s : Steered) (h : CommandHistory) → Holds plc.old.value s h →
        codes.value_of_number (codes.type_of s.plant (record { 0 = var })) value ≡ None →
        (result ≡ codes.no_value) × (plc.new.value ≡ plc.old.value) }
    ensures slots { slots_of plc.new.value ≡ slots_of plc.old.value }
    ensures closed { plc.old.value ≡ None → result ≡ codes.closed }
{
    match value_at(alloc, plc, VarId(var), value) {
        None => NO_VALUE,
        Some(v) => order(alloc, plc, Command::Input(VarId(var), v), t),
    }
}

/// The variable reads this value until its release, whatever is stored meanwhile.
#[unsafe(no_mangle)]
pub extern "C" fn sfc_force(alloc: Global, plc: &mut Handle, var: u16, value: i64, t: i64) -> i32
    ensures code { (s : Steered) (h : CommandHistory) (v : ValueData) → Holds plc.old.value s h →
        codes.value_of_number (codes.type_of s.plant (record { 0 = var })) value ≡ Some v →
        Answers plc.old.value (commands.Force (record { 0 = var }) v) t result }
    ensures kept { (s : Steered) (h : CommandHistory) (v : ValueData) → Holds plc.old.value s h →
        codes.value_of_number (codes.type_of s.plant (record { 0 = var })) value ≡ Some v →
        Follows plc.old.value plc.new.value (commands.Force (record { 0 = var }) v) t }
    ensures no_value { (s : Steered) (h : CommandHistory) → Holds plc.old.value s h →
        codes.value_of_number (codes.type_of s.plant (record { 0 = var })) value ≡ None →
        (result ≡ codes.no_value) × (plc.new.value ≡ plc.old.value) }
    ensures slots { slots_of plc.new.value ≡ slots_of plc.old.value }
    ensures closed { plc.old.value ≡ None → result ≡ codes.closed }
{
    match value_at(alloc, plc, VarId(var), value) {
        None => NO_VALUE,
        Some(v) => order(alloc, plc, Command::Force(VarId(var), v), t),
    }
}

/// The variable reads its stored value again.
#[unsafe(no_mangle)]
pub extern "C" fn sfc_release(alloc: Global, plc: &mut Handle, var: u16, t: i64) -> i32
    ensures code { Answers plc.old.value (commands.Release (record { 0 = var })) t result }
    ensures kept { Follows plc.old.value plc.new.value (commands.Release (record { 0 = var })) t }
    ensures slots { slots_of plc.new.value ≡ slots_of plc.old.value }
    ensures closed { plc.old.value ≡ None → result ≡ codes.closed }
{
    order(alloc, plc, Command::Release(VarId(var)), t)
}

/// The program instance begins a new life.
#[unsafe(no_mangle)]
pub extern "C" fn sfc_reset(alloc: Global, plc: &mut Handle, program: u8, t: i64) -> i32
    ensures code { Answers plc.old.value (commands.Reset (record { 0 = program })) t result }
    ensures kept { Follows plc.old.value plc.new.value (commands.Reset (record { 0 = program })) t }
    ensures slots { slots_of plc.new.value ≡ slots_of plc.old.value }
    ensures closed { plc.old.value ≡ None → result ≡ codes.closed }
{
    order(alloc, plc, Command::Reset(ProgId(program)), t)
}

/// What the variable reads, as a command of the history.
#[unsafe(no_mangle)]
pub extern "C" fn sfc_read(
    alloc: Global,
    plc: &mut Handle,
    var: u16,
    t: i64,
    into: &mut Reply,
) -> i32
    ensures code { Answers plc.old.value (commands.Read (record { 0 = var })) t result }
    ensures reply { Replies plc.old.value (commands.Read (record { 0 = var })) t into.new }
    ensures kept { Follows plc.old.value plc.new.value (commands.Read (record { 0 = var })) t }
    ensures slots { slots_of plc.new.value ≡ slots_of plc.old.value }
    ensures closed { plc.old.value ≡ None → result ≡ codes.closed }
{
    tell(alloc, plc, Command::Read(VarId(var)), t, into)
}

/// Sets a breakpoint at a step, a transition or an action of a program instance, by its kind and its number. It waits
/// for the condition of this number among those of the opening, or for none where that is 65535.
#[unsafe(no_mangle)]
pub extern "C" fn sfc_break(
    alloc: Global,
    plc: &mut Handle,
    program: u8,
    kind: u8,
    number: u16,
    condition: u16,
    t: i64,
) -> i32
    ensures code { (point : PointData) → codes.point_of kind number ≡ Some point →
        Answers plc.old.value (codes.break_of (record { 0 = program }) point condition) t result }
    ensures kept { (point : PointData) → codes.point_of kind number ≡ Some point →
        Follows plc.old.value plc.new.value (codes.break_of (record { 0 = program }) point condition) t }
    ensures unknown { codes.point_of kind number ≡ None → (result ≡ codes.unknown) × (plc.new.value ≡ plc.old.value) }
    ensures slots { slots_of plc.new.value ≡ slots_of plc.old.value }
    ensures closed { (point : PointData) → codes.point_of kind number ≡ Some point → plc.old.value ≡ None → result ≡ codes.closed }
{
    match point_of(kind, number) {
        None => UNKNOWN,
        Some(point) => order(alloc, plc, break_of(ProgId(program), point, condition), t),
    }
}

/// Takes away the breakpoint at a step, a transition or an action of a program instance.
#[unsafe(no_mangle)]
pub extern "C" fn sfc_unbreak(
    alloc: Global,
    plc: &mut Handle,
    program: u8,
    kind: u8,
    number: u16,
    t: i64,
) -> i32
    ensures code { (point : PointData) → codes.point_of kind number ≡ Some point →
        Answers plc.old.value (commands.Unbreak (record { 0 = program }) point) t result }
    ensures kept { (point : PointData) → codes.point_of kind number ≡ Some point →
        Follows plc.old.value plc.new.value (commands.Unbreak (record { 0 = program }) point) t }
    ensures unknown { codes.point_of kind number ≡ None → (result ≡ codes.unknown) × (plc.new.value ≡ plc.old.value) }
    ensures slots { slots_of plc.new.value ≡ slots_of plc.old.value }
    ensures closed { (point : PointData) → codes.point_of kind number ≡ Some point → plc.old.value ≡ None → result ≡ codes.closed }
{
    match point_of(kind, number) {
        None => UNKNOWN,
        Some(point) => order(alloc, plc, Command::Unbreak(ProgId(program), point), t),
    }
}

/// Halts the resource: its time stands still.
#[unsafe(no_mangle)]
pub extern "C" fn sfc_stop(alloc: Global, plc: &mut Handle, t: i64) -> i32
    ensures code { Answers plc.old.value commands.Stop t result }
    ensures kept { Follows plc.old.value plc.new.value commands.Stop t }
    ensures slots { slots_of plc.new.value ≡ slots_of plc.old.value }
    ensures closed { plc.old.value ≡ None → result ≡ codes.closed }
{
    order(alloc, plc, Command::Stop, t)
}

/// Lets a halted resource run on.
#[unsafe(no_mangle)]
pub extern "C" fn sfc_go(alloc: Global, plc: &mut Handle, t: i64) -> i32
    ensures code { Answers plc.old.value commands.Go t result }
    ensures kept { Follows plc.old.value plc.new.value commands.Go t }
    ensures slots { slots_of plc.new.value ≡ slots_of plc.old.value }
    ensures closed { plc.old.value ≡ None → result ≡ codes.closed }
{
    order(alloc, plc, Command::Go, t)
}

/// No command behind it is accepted.
#[unsafe(no_mangle)]
pub extern "C" fn sfc_end(alloc: Global, plc: &mut Handle, t: i64) -> i32
    ensures code { Answers plc.old.value commands.End t result }
    ensures kept { Follows plc.old.value plc.new.value commands.End t }
    ensures slots { slots_of plc.new.value ≡ slots_of plc.old.value }
    ensures closed { plc.old.value ≡ None → result ≡ codes.closed }
{
    order(alloc, plc, Command::End, t)
}
