//! Points of charts, at which breakpoints may stand.

ghost use Rattle.std.specs.Prelude.{◌≡◌, Some, None, MatchOption};
ghost use Rattle.sfc_debug.specs.sfc_core.Agreement.{plant_of};
ghost use Rattle.sfc_script.specs.Commands as commands;
ghost use Rattle.sfc_script.specs.Points as points;

use crate::names::program_of;
use crate::number::magnitude;
use crate::sfc_core::resource::Resource;
use crate::split::first_word;
use sfc_base::case::is_same_word;
use sfc_base::ids::{ActionNumber, ProgId, TransitionId};
use sfc_base::references::StepId;
use sfc_events::command::Point;
use sfc_plant::plant::Plant;

/// The greatest number of a transition, counted from 1.
const GREATEST_NUMBER: u64 = 65_535;

/// A point of a program instance.
#[derive(Clone, Copy, Debug, PartialEq, Eq)]
pub struct Place {
    pub program: ProgId,
    pub point: Point,
}

/// Whether the word has decimal digits alone; one without bytes has. It takes no memory.
pub fn are_digits(word: &[u8]) -> bool
    ensures { result ≡ points.are_digits word.now }
{
    let mut rest = word;
    'digits: while let Some((byte, after)) = rest.split_first() {
        if !byte.is_ascii_digit() {
            return false;
        }
        rest = after;
    }
    true
}

/// The transition that is counted as the number that the digits are, from 1 to 65,535; None where it is no such number. It takes no
/// memory.
pub fn numbered_transition(word: &[u8]) -> Option<TransitionId>
    ensures { result ≡ points.numbered_transition word.now }
{
    let number = magnitude(word, GREATEST_NUMBER)?;
    if number == 0 {
        return None;
    }
    Some(TransitionId((number - 1) as u16))
}

/// The transition of a program instance with this number, which is counted from 1, or with this name; case is not
/// significant (2.1.2, 2.6.3). Whether the chart has one of that number is not asked. It takes no memory.
pub fn find_transition(plant: &Plant, program: ProgId, word: &[u8]) -> Option<TransitionId>
    ensures { result ≡ points.find_transition plant.now program word.now }
{
    if are_digits(word) {
        numbered_transition(word)
    } else {
        plant.find_transition(program, word)
    }
}

/// The first action of a program instance with this name, in the order of their numbers; case is not significant (2.1.2,
/// 2.6.4.1). It takes no memory.
pub fn find_action(resource: &Resource, program: ProgId, name: &[u8]) -> Option<ActionNumber>
    ensures { result ≡ points.find_action (plant_of resource.now) program name.now }
{
    let plant = resource.plant();
    if program.0 as usize >= plant.instances().len() {
        return None;
    }
    let tables = resource.program(program).tables();
    tables.find_action(&plant.names(program), name)
}

// The step of a program instance with this name; else a number that no chart has.
fn step_of(plant: &Plant, program: ProgId, name: &[u8]) -> StepId
    ensures { result ≡ points.step_of plant.now program name.now }
{
    plant.find_step(program, name).unwrap_or(StepId(65535))
}

// The transition of a program instance with this number or name; for a name that isn't found a number that no chart has.
fn transition_of(plant: &Plant, program: ProgId, word: &[u8]) -> Option<TransitionId>
    ensures { result ≡ points.transition_of plant.now program word.now }
{
    if are_digits(word) {
        return numbered_transition(word);
    }
    let named = plant.find_transition(program, word);
    Some(named.unwrap_or(TransitionId(65535)))
}

// The first action of a program instance with this name; else a number that no chart has.
fn action_of(resource: &Resource, program: ProgId, name: &[u8]) -> ActionNumber
    ensures { result ≡ points.action_of (plant_of resource.now) program name.now }
{
    find_action(resource, program, name).unwrap_or(ActionNumber(65535))
}

// The point of a program instance that the word is behind this keyword.
fn point_of(resource: &Resource, program: ProgId, keyword: &[u8], word: &[u8]) -> Option<Point>
    ensures { result ≡ points.point_of (plant_of resource.now) program keyword.now word.now }
{
    if is_same_word(keyword, b"STEP") {
        Some(Point::Step(step_of(resource.plant(), program, word)))
    } else if is_same_word(keyword, b"ACTION") {
        Some(Point::Action(action_of(resource, program, word)))
    } else if is_same_word(keyword, b"TRANSITION") {
        let transition = transition_of(resource.plant(), program, word)?;
        Some(Point::Transition(transition))
    } else {
        None
    }
}

// The point of a program instance in front, and what stands behind it.
fn first_point<'a>(
    resource: &Resource,
    program: ProgId,
    rest: &'a [u8],
) -> Option<(Point, &'a [u8])>
    ensures { MatchOption result (points.first_point (plant_of resource.now) program rest.now ≡ None)
        (λ r. points.first_point (plant_of resource.now) program rest.now ≡ Some (r.0, r.1.now)) }
{
    let (keyword, behind) = first_word(rest)?;
    let (word, after) = first_word(behind)?;
    let point = point_of(resource, program, keyword, word)?;
    Some((point, after))
}

/// The program instance and its point in front, and what stands behind them; None where there is no point. Names that
/// are not found stand as numbers that no plant has. It takes no memory.
pub fn first_place<'a>(resource: &Resource, rest: &'a [u8]) -> Option<(Place, &'a [u8])>
    ensures { MatchOption result (commands.first_place (plant_of resource.now) rest.now ≡ None)
        (λ r. commands.first_place (plant_of resource.now) rest.now ≡ Some (r.0, r.1.now)) }
{
    let (name, behind) = first_word(rest)?;
    let program = program_of(resource.plant(), name);
    let (point, after) = first_point(resource, program, behind)?;
    Some((Place { program, point }, after))
}

/// The program instance and its point that are the text; None where it is none, or more stands behind it.
pub fn only_place(resource: &Resource, rest: &[u8]) -> Option<Place>
    ensures { result ≡ commands.only_place (plant_of resource.now) rest.now }
{
    let (place, behind) = first_place(resource, rest)?;
    if first_word(behind).is_some() {
        return None;
    }
    Some(place)
}
