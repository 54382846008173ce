//! Breakpoints, as an editor sets them.

ghost use Rattle.std.specs.Prelude.{OnOk, IfOk, IsTrue};
ghost use Rattle.sfc_prompt.specs.Prompts.{session_in};
ghost use Rattle.sfc_prompt.specs.Transcripts.{Puts};
ghost use Rattle.sfc_session.specs.Sessions.{rows_in};
ghost use Rattle.sfc_editing.specs.Points.{Sets, SetsLast, Takes, TakesLast};

use crate::saying::say_words;
use crate::sfc_core::resource::Resource;
use crate::sfc_debug::breakpoint::Breakpoint;
use crate::sfc_script::point::{Place, find_action, find_transition};
use crate::sfc_script::split::{first_word, only_word, two_words};
use sfc_base::case::is_same_word;
use sfc_base::ids::{ProgId, TransitionId};
use sfc_base::references::StepId;
use sfc_events::command::{Command, CondId, Point, TraceRow};
use sfc_outline::item::Item;
use sfc_page::append::{append, append_number};
use sfc_plant::plant::Plant;
use sfc_prompt::prompt::Prompt;
use sfc_session::session::Session;
use std::alloc::{AllocError, Global};

// The point of a program instance that is an element of its type.
fn point_of(resource: &Resource, program: ProgId, item: Item) -> Option<Point> {
    let program_type = resource.plant().type_of(program)?;
    match item {
        Item::Step { step, .. } => Some(Point::Step(StepId(u16::try_from(step).ok()?))),
        Item::Transition { transition, .. } => {
            Some(Point::Transition(TransitionId(u16::try_from(transition).ok()?)))
        }
        Item::Action { action, .. } => {
            let declared = program_type.chart.actions.as_slice().get(action)?;
            Some(Point::Action(find_action(resource, program, declared.name.spelling())?))
        }
        _ => None,
    }
}

// The place of the program type in which an element is.
fn type_of_item(item: Item) -> Option<usize> {
    match item {
        Item::Step { program, .. }
        | Item::Transition { program, .. }
        | Item::Action { program, .. } => Some(program),
        _ => None,
    }
}

/// The points that an element of a program type is: one in each program instance of the type. The one error is that memory was refused.
pub fn places_of(alloc: Global, session: &Session, item: Item) -> Result<Vec<Place>, AllocError> {
    let resource = session.debugger().resource();
    let mut places = Vec::new(alloc);
    for (number, instance) in resource.plant().instances().iter().enumerate() {
        if Some(instance.program.0) == type_of_item(item) {
            let program = ProgId(u8::try_from(number).unwrap_or(u8::MAX));
            if let Some(point) = point_of(resource, program, item) {
                places.push(Place { program, point })?;
            }
        }
    }
    Ok(places)
}

// Puts at the end the word for a point and its name.
fn append_point(out: &mut Vec<u8>, resource: &Resource, place: Place) -> Result<(), AllocError> {
    let plant = resource.plant();
    let names = plant.names(place.program);
    match place.point {
        Point::Step(step) => {
            append(out, b"STEP ")?;
            append(out, names.step(step))
        }
        Point::Transition(transition) => {
            append(out, b"TRANSITION ")?;
            append_number(out, u64::from(transition.0).saturating_add(1))
        }
        Point::Action(action) => {
            append(out, b"ACTION ")?;
            if usize::from(place.program.0) >= plant.instances().len() {
                return Ok(());
            }
            append(
                out,
                resource
                    .program(place.program)
                    .tables()
                    .action_name(&names, action),
            )
        }
    }
}

/// Puts at the end a point as a script names it. The one error is that memory was refused.
pub fn append_place(out: &mut Vec<u8>, session: &Session, place: Place) -> Result<(), AllocError> {
    append(out, session.plant().instance_name(place.program))?;
    append(out, b" ")?;
    append_point(out, session.debugger().resource(), place)
}

// Whether a command sets a breakpoint there.
fn is_setting(command: Command, place: Place) -> bool
    ensures { IsTrue result → Sets command place }
{
    match command {
        Command::Break(program, point) | Command::BreakIf(program, point, _) => {
            program == place.program && point == place.point
        }
        _ => false,
    }
}

// Whether a command takes the breakpoint away that is there.
fn is_taking(command: Command, place: Place) -> bool
    ensures { IsTrue result → Takes command place }
{
    match command {
        Command::Unbreak(program, point) => program == place.program && point == place.point,
        _ => false,
    }
}

// Whether the command that was accepted last sets a breakpoint there.
fn last_sets(session: &Session, place: Place) -> bool
    ensures { IsTrue result → SetsLast (rows_in session.now) place }
{
    match session.rows().last() {
        Some(row) => is_setting(row.command, place),
        None => false,
    }
}

// Whether the command that was accepted last takes the breakpoint away that was there.
fn last_takes(session: &Session, place: Place) -> bool
    ensures { IsTrue result → TakesLast (rows_in session.now) place }
{
    match session.rows().last() {
        Some(row) => is_taking(row.command, place),
        None => false,
    }
}

// The words that set a breakpoint.
fn break_words(
    alloc: Global,
    session: &Session,
    place: Place,
    condition: &[u8],
) -> Result<Vec<u8>, AllocError> {
    let mut words = Vec::new(alloc);
    append(&mut words, b"BREAK ")?;
    append_place(&mut words, session, place)?;
    if !condition.is_empty() {
        append(&mut words, b" WHEN ")?;
        append(&mut words, condition)?;
    }
    Ok(words)
}

/// Sets a breakpoint, with a condition where there is one: whether that was accepted, and so is the command that was accepted last. What is
/// told is put at the end of `out`. The one error is that memory was refused; then the prompt is of no more use.
pub fn break_at(
    alloc: Global,
    prompt: &mut Prompt,
    place: Place,
    condition: &[u8],
    out: &mut Vec<u8>,
) -> Result<bool, AllocError>
    ensures puts { OnOk result (Puts (session_in prompt.old) (session_in prompt.new) out.old.items out.new.items) }
    ensures sets { IfOk result (λ set. IsTrue set → SetsLast (rows_in (session_in prompt.new)) place) }
{
    let before = prompt.session().rows().len();
    let words = break_words(alloc, prompt.session(), place, condition)?;
    say_words(prompt, &words, out)?;
    let is_more = prompt.session().rows().len() > before;
    Ok(is_more && last_sets(prompt.session(), place))
}

/// Takes the breakpoint away that is set there: whether that was accepted, and so is the command that was accepted last. What is told is put
/// at the end of `out`. The one error is that memory was refused; then the prompt is of no more use.
pub fn unbreak_at(
    alloc: Global,
    prompt: &mut Prompt,
    place: Place,
    out: &mut Vec<u8>,
) -> Result<bool, AllocError>
    ensures puts { OnOk result (Puts (session_in prompt.old) (session_in prompt.new) out.old.items out.new.items) }
    ensures takes { IfOk result (λ taken. IsTrue taken → TakesLast (rows_in (session_in prompt.new)) place) }
{
    let before = prompt.session().rows().len();
    let mut words = Vec::new(alloc);
    append(&mut words, b"UNBREAK ")?;
    append_place(&mut words, prompt.session(), place)?;
    say_words(prompt, &words, out)?;
    let is_more = prompt.session().rows().len() > before;
    Ok(is_more && last_takes(prompt.session(), place))
}

// The point of which a command sets or takes a breakpoint.
fn place_of(command: Command) -> Option<Place> {
    match command {
        Command::Break(program, point)
        | Command::BreakIf(program, point, _)
        | Command::Unbreak(program, point) => Some(Place { program, point }),
        _ => None,
    }
}

// The condition for which a command lets a breakpoint wait.
fn condition_in(command: Command) -> Option<CondId> {
    match command {
        Command::BreakIf(_, _, id) => Some(id),
        _ => None,
    }
}

// Follows an accepted command.
fn follow(set: &mut Vec<Breakpoint>, command: Command) -> Result<(), AllocError> {
    let Some(place) = place_of(command) else {
        return Ok(());
    };
    set.retain(|other| !other.is_at(place.program, place.point));
    match command {
        Command::Unbreak(_, _) => {}
        _ => set.push(Breakpoint {
            program: place.program,
            point: place.point,
            condition: condition_in(command),
        })?,
    }
    Ok(())
}

/// The breakpoints that are set behind these accepted commands. The one error is that memory was refused.
pub fn set_by(alloc: Global, rows: &[TraceRow]) -> Result<Vec<Breakpoint>, AllocError> {
    let mut set = Vec::new(alloc);
    for row in rows {
        follow(&mut set, row.command)?;
    }
    Ok(set)
}

/// A kind of elements.
#[derive(Clone, Copy, Debug, PartialEq, Eq)]
enum Kind {
    Step,
    Transition,
    Action,
}

// The kind that a word names.
fn kind_of(word: &[u8]) -> Option<Kind> {
    if is_same_word(word, b"STEP") {
        Some(Kind::Step)
    } else if is_same_word(word, b"TRANSITION") {
        Some(Kind::Transition)
    } else if is_same_word(word, b"ACTION") {
        Some(Kind::Action)
    } else {
        None
    }
}

/// What a text names: in one program instance or in all, elements of one kind or of any, by a name or a number.
#[derive(Clone, Copy)]
struct Naming<'a> {
    program: Option<ProgId>,
    kind: Option<Kind>,
    name: &'a [u8],
}

// What a text names without a program instance.
fn naming_in<'a>(program: Option<ProgId>, text: &'a [u8]) -> Option<Naming<'a>> {
    if let Some((keyword, name)) = two_words(text) {
        let kind = kind_of(keyword)?;
        return Some(Naming {
            program,
            kind: Some(kind),
            name,
        });
    }
    Some(Naming {
        program,
        kind: None,
        name: only_word(text)?,
    })
}

// What a text names.
fn naming_of<'a>(plant: &Plant, text: &'a [u8]) -> Option<Naming<'a>> {
    let (word, behind) = first_word(text)?;
    match plant.find_instance(word) {
        Some(program) if first_word(behind).is_some() => naming_in(Some(program), behind),
        _ => naming_in(None, text),
    }
}

// Whether an element may be of this kind.
fn is_of(naming: Naming<'_>, kind: Kind) -> bool {
    match naming.kind {
        Some(wanted) => wanted == kind,
        None => true,
    }
}

// The point of a program instance that is named so.
fn named_point(resource: &Resource, program: ProgId, naming: Naming<'_>) -> Option<Point> {
    let plant = resource.plant();
    if is_of(naming, Kind::Step) {
        if let Some(step) = plant.find_step(program, naming.name) {
            return Some(Point::Step(step));
        }
    }
    if is_of(naming, Kind::Action) {
        if let Some(action) = find_action(resource, program, naming.name) {
            return Some(Point::Action(action));
        }
    }
    if is_of(naming, Kind::Transition) {
        let transition = find_transition(plant, program, naming.name)?;
        return Some(Point::Transition(transition));
    }
    None
}

/// The points that a text names: `Ready`, `STEP Ready`, `TRANSITION 2`, `ACTION Count`, each maybe behind the name of one program instance;
/// without it those of all instances. A name alone is a step's, or else an action's, or else a transition's. The one error is that memory
/// was refused.
pub fn places_named(
    alloc: Global,
    session: &Session,
    text: &[u8],
) -> Result<Vec<Place>, AllocError> {
    let mut places = Vec::new(alloc);
    let resource = session.debugger().resource();
    let Some(naming) = naming_of(resource.plant(), text) else {
        return Ok(places);
    };
    for number in 0..resource.plant().instances().len() {
        let program = ProgId(u8::try_from(number).unwrap_or(u8::MAX));
        if naming.program.is_none() || naming.program == Some(program) {
            if let Some(point) = named_point(resource, program, naming) {
                places.push(Place { program, point })?;
            }
        }
    }
    Ok(places)
}
