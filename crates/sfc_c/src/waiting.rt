//! Breakpoints with conditions that are read then.

ghost use Rattle.std.specs.Prelude.{◌≡◌, ◌≢◌, ◌∷◌, [], IfOk, None, OnOk, Some};
ghost use Rattle.sfc_events.specs.declared.command.Point.{Point as PointData};
ghost use Rattle.sfc_events.specs.declared.read_error.ReadErrorKind.TheVariants as kinds;
ghost use Rattle.sfc_replay.specs.sfc_debug.Histories.{CommandHistory};
ghost use Rattle.sfc_replay.specs.sfc_debug.Meaning.{IsAccepted};
ghost use Rattle.sfc_replay.specs.sfc_debug.Steered.{Steered};
ghost use Rattle.sfc_replay.specs.sfc_script.Scripts.{ConditionReads};
ghost use Rattle.sfc_c.specs.Codes as codes;
ghost use Rattle.sfc_c.specs.Handles.{Holds};
ghost use Rattle.sfc_c.specs.Resources.{Stands, slots_in, slots_of, steered_in};
ghost use Rattle.sfc_c.specs.Waiting.{IsFound, Sets, WaitsOr, added_by};

use crate::handle::Handle;
use crate::plc::Plc;
use crate::point::point_of;
use crate::reply::code;
use crate::sfc_debug::break_condition::BreakCondition;
use crate::sfc_debug::timed::Timed;
use crate::sfc_script::condition_error::ConditionError;
use crate::sfc_script::conditions::condition_of;
use crate::sfc_script::point::Place;
use crate::status::{CLOSED, NO_EXPRESSION, NO_MEMORY, UNKNOWN};
use sfc_base::ids::ProgId;
use sfc_events::command::{Command, CondId, Point};
use sfc_events::read_error::ReadErrorKind;
use sfc_plant::plant::Plant;
use sfc_text::read_expr::read_expr;
use std::alloc::{AllocError, Global};

/// What a text is as a condition in a program instance.
pub enum Found {
    /// This condition.
    Condition(BreakCondition),
    /// It can be read, but there is no such program instance.
    NoProgram,
    /// No condition.
    Faulty,
}

// The error where memory was refused to a reader.
fn refuse_memory(kind: ReadErrorKind) -> Result<(), AllocError>
    ensures { OnOk result (kind ≢ kinds.Memory) }
{
    match kind {
        ReadErrorKind::Memory => Err(AllocError),
        _ => Ok(()),
    }
}

// What an expression is that was checked. The error is that memory was refused.
fn of_checked(checked: Result<BreakCondition, ConditionError>) -> Result<Found, AllocError>
    ensures { IfOk result (λ found. IsFound checked found) }
{
    match checked {
        Ok(condition) => Ok(Found::Condition(condition)),
        Err(ConditionError::UnknownProgram(_)) => Ok(Found::NoProgram),
        Err(ConditionError::Wrong(_, _)) => Ok(Found::Faulty),
        Err(ConditionError::Memory) => Err(AllocError),
    }
}

// The condition that a text is in a program instance, as that of a transition of its program type (2.6.3, 3.3). Where there is no such
// instance the text is read all the same. The error is that memory was refused.
fn read_condition(
    alloc: Global,
    plant: &Plant,
    program: ProgId,
    text: &[u8],
) -> Result<Found, AllocError>
    ensures { IfOk result (λ found. ConditionReads plant.now 0 program text.now (added_by found)) }
{
    match read_expr(alloc, text) {
        Ok(expression) => of_checked(condition_of(alloc, plant, 0, program, &expression)),
        Err(error) => {
            refuse_memory(error.kind)?;
            Ok(Found::Faulty)
        }
    }
}

// The same in the plant of a resource.
fn condition_in(alloc: Global, plc: &Plc, program: ProgId, text: &[u8]) -> Result<Found, AllocError>
    ensures { IfOk result (λ found. ConditionReads (steered_in plc.now).plant 0 program text.now (added_by found)) }
{
    read_condition(alloc, plc.debugger().resource().plant(), program, text)
}

// A breakpoint at a point that waits for a condition, at the raw instant t in microseconds: the code.
fn set_waiting(plc: &mut Plc, point: Point, condition: BreakCondition, t: i64) -> i32
    ensures slots { slots_in plc.new ≡ slots_in plc.old }
    ensures set { (h : CommandHistory) → IsAccepted (steered_in plc.old).plant (steered_in plc.old).table h → Stands plc.old h →
        WaitsOr (steered_in plc.old) h condition.program (point, t) (Some (condition ∷ [])) (Some plc.new) result }
{
    match plc.break_when(point, condition, t) {
        Ok(answer) => code(answer),
        Err(_) => NO_MEMORY,
    }
}

// The same of a text.
fn set_for(alloc: Global, plc: &mut Plc, place: Place, text: &[u8], t: i64) -> i32
    ensures slots { slots_in plc.new ≡ slots_in plc.old }
    ensures set { (h : CommandHistory) → IsAccepted (steered_in plc.old).plant (steered_in plc.old).table h → Stands plc.old h →
        Sets (steered_in plc.old) h place.program (place.point, t) text.now (Some plc.new) result }
{
    match condition_in(alloc, plc, place.program, text) {
        Ok(Found::Condition(condition)) => set_waiting(plc, place.point, condition, t),
        Ok(Found::NoProgram) => code(plc.obey(Timed {
            command: Command::BreakIf(place.program, place.point, CondId(0)),
            raw: t,
        })),
        Ok(Found::Faulty) => NO_EXPRESSION,
        Err(_) => NO_MEMORY,
    }
}

/// Sets a breakpoint at a step, a transition or an action of a program instance, by its kind and its number, that waits for the condition
/// which the text is: an expression of type BOOL in which names are those of the conditions of that program's transitions. The condition gets
/// the next number behind all others. -7 where the text is no such condition, -4 where memory was refused, and then nothing has happened.
#[unsafe(no_mangle)]
pub extern "C" fn sfc_break_when(
    alloc: Global,
    plc: &mut Handle,
    program: u8,
    kind: u8,
    number: u16,
    text: &[u8],
    t: i64,
) -> i32
    ensures set { (point : PointData) (s : Steered) (h : CommandHistory) → codes.point_of kind number ≡ Some point →
        Holds plc.old.value s h → IsAccepted s.plant s.table h →
        Sets s h (record { 0 = program }) (point, t) text.now plc.new.value result }
    ensures unknown { codes.point_of kind number ≡ None → (result ≡ codes.unknown) × (plc.new.value ≡ plc.old.value) }
    ensures slots { slots_of plc.new.value ≡ slots_of plc.old.value }
    ensures closed { (point : PointData) → codes.point_of kind number ≡ Some point → plc.old.value ≡ None → result ≡ codes.closed }
{
    let Some(point) = point_of(kind, number) else {
        return UNKNOWN;
    };
    let place = Place {
        program: ProgId(program),
        point,
    };
    match plc.take(alloc) {
        None => CLOSED,
        Some(mut held) => {
            let code = set_for(alloc, &mut held, place, text, t);
            plc.put(held, alloc);
            code
        }
    }
}
