//! Why a command is refused that is no event.

ghost use Rattle.std.specs.Prelude.{◌≡◌};
ghost use Rattle.sfc_core.specs.Agreement as core;
ghost use Rattle.sfc_core.specs.Verdict.{or_then};
ghost use Rattle.sfc_debug.specs.Verdict as verdict;

use crate::break_condition::BreakCondition;
use crate::breakpoints::Breakpoints;
use crate::hits::has_point;
use sfc_base::ids::{ProgId, VarId};
use sfc_core::resource::Resource;
use sfc_events::command::{Command, CondId, Point};
use sfc_events::refusal::Refusal;

// That there is no such variable.
fn refuse_variable(resource: &Resource, id: VarId) -> Option<Refusal>
    ensures { result ≡ verdict.variable_refusal (core.plant_of resource.now) id }
{
    if (id.0 as usize) < resource.variables() {
        None
    } else {
        Some(Refusal::UnknownVar)
    }
}

// That there is no such program instance, or no such point in its chart.
fn refuse_point(resource: &Resource, program: ProgId, point: Point) -> Option<Refusal>
    ensures { result ≡ verdict.point_refusal (core.plant_of resource.now) program point }
{
    if (program.0 as usize) >= resource.plant().instances().len() {
        Some(Refusal::UnknownProgram)
    } else if has_point(resource, program, point) {
        None
    } else {
        Some(Refusal::NoSuchPoint)
    }
}

// That the program instance has no such condition.
fn refuse_condition(table: &[BreakCondition], program: ProgId, id: CondId) -> Option<Refusal>
    ensures { result ≡ verdict.condition_refusal table.now program id }
{
    match table.get(id.0 as usize) {
        Some(entry) if entry.program.0 == program.0 => None,
        _ => Some(Refusal::NoSuchCondition),
    }
}

// That no more can be set.
fn refuse_room(points: &Breakpoints, program: ProgId, point: Point) -> Option<Refusal>
    ensures { result ≡ verdict.room_refusal program point points.now }
{
    if points.place(program, point).is_none() && points.as_slice().len() >= 64 {
        Some(Refusal::TooManyPoints)
    } else {
        None
    }
}

// That none is set there.
fn refuse_unset(points: &Breakpoints, program: ProgId, point: Point) -> Option<Refusal>
    ensures { result ≡ verdict.unset_refusal program point points.now }
{
    match points.place(program, point) {
        Some(_) => None,
        None => Some(Refusal::NoSuchPoint),
    }
}

/// Why a breakpoint with a condition that isn't in the table is refused, by what it names.
pub fn refuse_unnumbered(resource: &Resource, program: ProgId, point: Point) -> Refusal
    ensures { result ≡ verdict.unnumbered (core.plant_of resource.now) program point }
{
    match refuse_point(resource, program, point) {
        Some(refusal) => refusal,
        None => Refusal::NoSuchCondition,
    }
}

/// Why a command is refused that is no event, by what it names.
pub fn refuse_own(
    resource: &Resource,
    table: &[BreakCondition],
    points: &Breakpoints,
    command: Command,
) -> Option<Refusal>
    ensures { result ≡ verdict.own_refusal (core.plant_of resource.now) table.now points.now command }
{
    match command {
        Command::Read(id) => refuse_variable(resource, id),
        Command::Break(program, point) => refuse_point(resource, program, point).or_else(
            || refuse_room(points, program, point),
        ),
        Command::BreakIf(program, point, id) => refuse_point(resource, program, point)
            .or_else(|| refuse_condition(table, program, id))
            .or_else(|| refuse_room(points, program, point)),
        Command::Unbreak(program, point) => refuse_point(resource, program, point).or_else(
            || refuse_unset(points, program, point),
        ),
        _ => None,
    }
}
