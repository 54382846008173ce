//! The names of a chart, by what they may mean.

use crate::chart::Chart;
use sfc_base::case::is_same_word;
use sfc_outline::entry::Entry;
use sfc_outline::item::Item;
use sfc_outline::mention::Declared;

/// What names may mean; in a program type by its place.
#[derive(Clone, Copy, Debug, PartialEq, Eq)]
pub enum Space {
    ProgramTypes,
    Globals,
    Tasks,
    Instances,
    Locals(usize),
    Steps(usize),
    Transitions(usize),
    Actions(usize),
}

impl Space {
    /// Whether what is declared is in it.
    pub fn has(self, item: Item) -> bool {
        match (self, item) {
            (Space::ProgramTypes, Item::ProgramType { .. })
            | (Space::Globals, Item::Global { .. })
            | (Space::Tasks, Item::Task { .. })
            | (Space::Instances, Item::Instance { .. }) => true,
            (Space::Locals(wanted), Item::Local { program, .. })
            | (Space::Steps(wanted), Item::Step { program, .. })
            | (Space::Transitions(wanted), Item::Transition { program, .. })
            | (Space::Actions(wanted), Item::Action { program, .. }) => wanted == program,
            _ => false,
        }
    }

    /// What something in it is, in words.
    pub fn kind(self) -> &'static str {
        match self {
            Space::ProgramTypes => "program type",
            Space::Globals => "global variable",
            Space::Tasks => "task",
            Space::Instances => "program instance",
            Space::Locals(_) => "variable",
            Space::Steps(_) => "step",
            Space::Transitions(_) => "transition",
            Space::Actions(_) => "action",
        }
    }
}

// What an entry declares, where it has this name.
fn declared_as(chart: &Chart, entry: &Entry, word: &[u8]) -> Option<Declared> {
    let name = entry.name?;
    if is_same_word(chart.bytes(name), word) {
        let item = entry.item;
        Some(Declared { item, name })
    } else {
        None
    }
}

/// What is declared by this name, in any case of its letters; None where nothing is.
pub fn find_in(chart: &Chart, space: Space, word: &[u8]) -> Option<Declared> {
    for entry in &chart.outline.entries {
        if space.has(entry.item) {
            if let Some(declared) = declared_as(chart, entry, word) {
                return Some(declared);
            }
        }
    }
    None
}

/// The place of the program type of this name.
pub fn program_named(chart: &Chart, word: &[u8]) -> Option<usize> {
    match find_in(chart, Space::ProgramTypes, word)?.item {
        Item::ProgramType { program } => Some(program),
        _ => None,
    }
}

/// The place of the program type of which a program instance of this name is.
pub fn program_of_instance(chart: &Chart, word: &[u8]) -> Option<usize> {
    let instance = find_in(chart, Space::Instances, word)?;
    let whole = chart.outline.entry_of(instance.item)?.span;
    for mention in &chart.outline.mentions {
        if whole.from <= mention.span.from && mention.span.to <= whole.to {
            if let Some(declared) = mention.declared {
                if let Item::ProgramType { program } = declared.item {
                    return Some(program);
                }
            }
        }
    }
    None
}
