//! The names that a plant has for what is declared.

ghost use Rattle.std.specs.Prelude.{◌≡◌, IsTrue, option_map, slice_get};
ghost use Rattle.sfc_outline.specs.Naming as naming;
ghost use Rattle.sfc_outline.specs.Naming.{IsEntryNamedBy, IsWordAt};

use crate::entry::Entry;
use crate::item::Item;
use crate::judging::bytes_at;
use sfc_base::case::is_same_word;
use sfc_plant::plant::Plant;
use sfc_plant::program_type::ProgramType;
use sfc_plant::variable::Variable;
use sfc_tokens::span::Span;

// The name of the variable at this place, if there is one.
fn variable_word(variables: &[Variable], place: usize) -> Option<&[u8]>
    ensures { option_map (λ word. word.now) result ≡ naming.variable_word variables.now place }
{
    match variables.get(place) {
        Some(variable) => Some(variable.name.spelling()),
        None => None,
    }
}

// The name of the global variable that the external at this place is, if there is one.
fn external_word<'a>(
    globals: &'a [Variable],
    program: &ProgramType,
    place: usize,
) -> Option<&'a [u8]>
    ensures { option_map (λ word. word.now) result ≡ naming.external_word globals.now program.now place }
{
    match program.externals.as_slice().get(place) {
        Some(global) => variable_word(globals, global.0),
        None => None,
    }
}

// The name of the step at this place, if there is one.
fn step_word(program: &ProgramType, place: usize) -> Option<&[u8]>
    ensures { option_map (λ word. word.now) result ≡ naming.step_word program.now place }
{
    match program.chart.steps.as_slice().get(place) {
        Some(step) => Some(step.name.spelling()),
        None => None,
    }
}

// The name of the transition at this place, if there is one and it has one.
fn transition_word(program: &ProgramType, place: usize) -> Option<&[u8]>
    ensures { option_map (λ word. word.now) result ≡ naming.transition_word program.now place }
{
    match program.chart.transitions.as_slice().get(place) {
        Some(transition) => match &transition.name {
            Some(name) => Some(name.spelling()),
            None => None,
        },
        None => None,
    }
}

// The name of the action at this place, if there is one.
fn action_word(program: &ProgramType, place: usize) -> Option<&[u8]>
    ensures { option_map (λ word. word.now) result ≡ naming.action_word program.now place }
{
    match program.chart.actions.as_slice().get(place) {
        Some(action) => Some(action.name.spelling()),
        None => None,
    }
}

// The program type at this place, if there is one.
fn type_at(plant: &Plant, place: usize) -> Option<&ProgramType>
    ensures { option_map (λ program. program.now) result ≡ slice_get plant.now.types place }
{
    plant.types().get(place)
}

// The name of the program type at this place, if there is one.
fn type_word(plant: &Plant, place: usize) -> Option<&[u8]>
    ensures { option_map (λ word. word.now) result ≡ naming.type_word plant.now place }
{
    match type_at(plant, place) {
        Some(program) => Some(program.name.spelling()),
        None => None,
    }
}

// The name of the task at this place, if there is one.
fn task_word(plant: &Plant, place: usize) -> Option<&[u8]>
    ensures { option_map (λ word. word.now) result ≡ naming.task_word plant.now place }
{
    match plant.tasks().get(place) {
        Some(task) => Some(task.name.spelling()),
        None => None,
    }
}

// The name of the program instance at this place, if there is one.
fn instance_word(plant: &Plant, place: usize) -> Option<&[u8]>
    ensures { option_map (λ word. word.now) result ≡ naming.instance_word plant.now place }
{
    match plant.instances().get(place) {
        Some(instance) => Some(instance.name.spelling()),
        None => None,
    }
}

// The name of something in a program type.
fn own_word<'a>(plant: &'a Plant, program: &'a ProgramType, item: Item) -> Option<&'a [u8]>
    ensures { option_map (λ word. word.now) result ≡ naming.own_word plant.now program.now item }
{
    match item {
        Item::Local { local, .. } => variable_word(program.locals.as_slice(), local),
        Item::External { external, .. } => external_word(plant.globals(), program, external),
        Item::Step { step, .. } => step_word(program, step),
        Item::Transition { transition, .. } => transition_word(program, transition),
        Item::Action { action, .. } => action_word(program, action),
        _ => None,
    }
}

// The place of the program type in which something is.
fn program_of(item: Item) -> Option<usize>
    ensures { result ≡ naming.program_of item }
{
    match item {
        Item::Local { program, .. }
        | Item::External { program, .. }
        | Item::Step { program, .. }
        | Item::Transition { program, .. }
        | Item::Action { program, .. } => Some(program),
        _ => None,
    }
}

// The name of something in the program type at this place, if there is one.
fn word_in(plant: &Plant, program: usize, item: Item) -> Option<&[u8]>
    ensures { option_map (λ word. word.now) result ≡ naming.word_in plant.now program item }
{
    match type_at(plant, program) {
        Some(program) => own_word(plant, program, item),
        None => None,
    }
}

// The name of something outside program types, or of one.
fn shared_word(plant: &Plant, item: Item) -> Option<&[u8]>
    ensures { option_map (λ word. word.now) result ≡ naming.shared_word plant.now item }
{
    match item {
        Item::ProgramType { program } => type_word(plant, program),
        Item::Configuration => Some(plant.configuration().spelling()),
        Item::Global { global } => variable_word(plant.globals(), global),
        Item::Task { task } => task_word(plant, task),
        Item::Instance { instance } => instance_word(plant, instance),
        _ => None,
    }
}

/// The name that a plant has for something; of an external that of the global variable. None where the plant hasn't it, or has no
/// name for it.
pub fn word_of(plant: &Plant, item: Item) -> Option<&[u8]>
    ensures { option_map (λ word. word.now) result ≡ naming.word_of plant.now item }
{
    match program_of(item) {
        Some(program) => word_in(plant, program, item),
        None => shared_word(plant, item),
    }
}

// Whether that stands there, but for case, which the plant has.
fn is_named_by(text: &[u8], plant: &Plant, name: Span, item: Item) -> bool
    ensures { IsTrue result → IsWordAt text.now name (naming.word_of plant.now item) }
{
    let Some(word) = word_of(plant, item) else {
        return false;
    };
    match bytes_at(text, name) {
        Some(found) => is_same_word(found, word),
        None => false,
    }
}

/// Whether the entry's name, if it has one, is what the plant has under its number.
pub(crate) fn is_entry_named_by(text: &[u8], plant: &Plant, entry: &Entry) -> bool
    ensures { IsTrue result → IsEntryNamedBy text.now plant.now entry.now }
{
    match entry.name {
        Some(name) => is_named_by(text, plant, name, entry.item),
        None => true,
    }
}
