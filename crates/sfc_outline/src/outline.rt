//! The outline of a text.

ghost use Rattle.std.specs.Prelude.{◌≡◌, All, Contains, IfOk, IfSome, IsTrue, find, option_map, reverse};
ghost use Rattle.sfc_outline.specs.Naming.{IsEntryNamedBy};
ghost use Rattle.sfc_outline.specs.Places as places;
ghost use Rattle.sfc_outline.specs.Places.{IsEntryOf, IsMentionOf};

use crate::configuration::outline_configuration;
use crate::draft::Draft;
use crate::elements::outline_elements;
use crate::entry::Entry;
use crate::item::Item;
use crate::judging::{is_entry_of, is_mention_of};
use crate::mention::{Declared, Mention};
use crate::naming::is_entry_named_by;
use crate::spaces::{Own, Scope, Shared};
use crate::variables::outline_blocks;
use sfc_plant::plant::Plant;
use sfc_text::tree::{Program, Source};
use sfc_tokens::span::Span;
use std::alloc::{AllocError, Global};

/// What a text declares, each thing before what is in it, and where it names what; both in text order.
#[derive(Drop)]
pub struct Outline {
    pub entries: Vec<Entry>,
    pub mentions: Vec<Mention>,
}

// Puts a program type last.
fn outline_program(
    alloc: Global,
    written: &Program,
    program: usize,
    shared: &Shared,
    draft: &mut Draft,
) -> Result<(), AllocError> {
    let own = Own::of(alloc, program, written)?;
    let scope = Scope {
        program,
        shared,
        own: &own,
    };
    draft.declare(Item::ProgramType { program }, written.span, &written.name)?;
    outline_blocks(written.variables.as_slice(), &scope, draft)?;
    outline_elements(written.elements.as_slice(), &scope, draft)
}

// Puts the program types last that stand before the configuration, or those behind it.
fn outline_programs(
    alloc: Global,
    source: &Source,
    behind: bool,
    shared: &Shared,
    draft: &mut Draft,
) -> Result<(), AllocError> {
    let mut program = 0usize;
    for written in source.programs.as_slice() {
        if behind == (written.span.from > source.configuration_span.from) {
            outline_program(alloc, written, program, shared, draft)?;
        }
        program = program.saturating_add(1);
    }
    Ok(())
}

// Those of the entries that are what they are said to be: all of them.
fn right_entries(alloc: Global, text: &[u8], entries: &[Entry]) -> Result<Vec<Entry>, AllocError>
    ensures { IfOk result (λ right. All (IsEntryOf text.now) right.items) }
{
    let mut right = Vec::new(alloc);
    for entry in entries {
        if is_entry_of(text, entry) {
            right.push(*entry)?;
        }
    }
    Ok(right)
}

// Those of the mentions that are what they are said to be: all of them.
fn right_mentions(
    alloc: Global,
    text: &[u8],
    mentions: &[Mention],
) -> Result<Vec<Mention>, AllocError>
    ensures { IfOk result (λ right. All (IsMentionOf text.now) right.items) }
{
    let mut right = Vec::new(alloc);
    for mention in mentions {
        if is_mention_of(text, mention) {
            right.push(*mention)?;
        }
    }
    Ok(right)
}

/// The outline of a text that was read as this tree, whether it can be loaded or not. Where a name is declared twice, the first
/// is meant. A place that isn't the text's, as where the tree is that of another text, is left out. The one error is that memory
/// was refused.
pub fn outline_of(alloc: Global, text: &[u8], source: &Source) -> Result<Outline, AllocError>
    ensures entries { IfOk result (λ outline. All (IsEntryOf text.now) outline.entries.items) }
    ensures mentions { IfOk result (λ outline. All (IsMentionOf text.now) outline.mentions.items) }
{
    let shared = Shared::of(alloc, source)?;
    let mut draft = Draft::new(alloc);
    outline_programs(alloc, source, false, &shared, &mut draft)?;
    outline_configuration(source, &shared, &mut draft)?;
    outline_programs(alloc, source, true, &shared, &mut draft)?;
    let entries = right_entries(alloc, text, &draft.entries)?;
    let mentions = right_mentions(alloc, text, &draft.mentions)?;
    Ok(Outline { entries, mentions })
}

// Those of the entries whose name is what the plant has under their number: all of them.
fn entries_of_plant(
    alloc: Global,
    text: &[u8],
    plant: &Plant,
    entries: &[Entry],
) -> Result<Vec<Entry>, AllocError>
    ensures places { IfOk result (λ right. All (IsEntryOf text.now) right.items) }
    ensures named { IfOk result (λ right. All (IsEntryNamedBy text.now plant.now) right.items) }
{
    let mut right = Vec::new(alloc);
    for entry in entries {
        if is_entry_named_by(text, plant, entry) && is_entry_of(text, entry) {
            right.push(*entry)?;
        }
    }
    Ok(right)
}

/// The outline of a text that was read as this tree and loaded as this plant: as `outline_of` answers it, and its numbers are the
/// plant's, which has the names that stand there.
pub fn outline_of_plant(
    alloc: Global,
    text: &[u8],
    source: &Source,
    plant: &Plant,
) -> Result<Outline, AllocError>
    ensures entries { IfOk result (λ outline. All (IsEntryOf text.now) outline.entries.items) }
    ensures mentions { IfOk result (λ outline. All (IsMentionOf text.now) outline.mentions.items) }
    ensures named { IfOk result (λ outline. All (IsEntryNamedBy text.now plant.now) outline.entries.items) }
{
    let Outline { entries, mentions } = outline_of(alloc, text, source)?;
    let entries = entries_of_plant(alloc, text, plant, &entries)?;
    Ok(Outline { entries, mentions })
}

// Whether the entry is of this.
fn is_of(entry: &Entry, item: Item) -> bool
    ensures { IsTrue result → entry.now.item ≡ item }
{
    entry.item == item
}

// Whether a byte is one of these.
fn holds(span: Span, place: u32) -> bool
    ensures { result ≡ places.holds place span }
{
    span.from <= place && place < span.to
}

impl Outline {
    /// The innermost of what is declared in whose bytes a byte stands.
    pub fn entry_at(&self, place: u32) -> Option<&Entry>
        ensures { option_map (λ entry. entry.now) result ≡
            find (λ entry. places.holds place entry.span) (reverse self.now.entries.items) }
    {
        self.entries
            .iter()
            .rev()
            .find(|entry| holds(entry.span, place))
    }

    /// Where something is declared.
    pub fn entry_of(&self, item: Item) -> Option<&Entry>
        ensures item { IfSome result (λ entry. entry.now.item ≡ item) }
        ensures there { IfSome result (λ entry. Contains self.now.entries.items entry.now) }
    {
        self.entries.iter().find(|entry| is_of(entry, item))
    }

    /// What the name means at which a byte stands; where that name declares something, this.
    pub fn declared_at(&self, place: u32) -> Option<Declared> {
        for mention in &self.mentions {
            if holds(mention.span, place) {
                return mention.declared;
            }
        }
        for entry in &self.entries {
            if let Some(name) = entry.name {
                if holds(name, place) {
                    let item = entry.item;
                    return Some(Declared { item, name });
                }
            }
        }
        None
    }

    /// The names that mean something, in text order, without the one by which it is declared. The one error is that memory was
    /// refused.
    pub fn mentions_of(&self, alloc: Global, item: Item) -> Result<Vec<Span>, AllocError> {
        let mut spans = Vec::new(alloc);
        for mention in &self.mentions {
            if let Some(declared) = mention.declared {
                if declared.item == item {
                    spans.push(mention.span)?;
                }
            }
        }
        Ok(spans)
    }
}
