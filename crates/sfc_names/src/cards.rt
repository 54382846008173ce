//! What is told of what a chart declares.

use crate::card::Card;
use crate::chart::Chart;
use crate::meaning::{Meaning, Sense};
use crate::qualifiers::QualifierPage;
use crate::steps::{tell_action, tell_step};
use sfc_base::case::is_same_word;
use sfc_outline::item::Item;
use sfc_page::append::append;
use sfc_tokens::span::Span;
use std::alloc::{AllocError, Global};

/// The most lines of a declaration that are shown.
const MOST_LINES: usize = 40;

// How many blanks stand before a byte, from the start of its line.
fn column_of(text: &[u8], from: usize) -> usize {
    match text.get(..from) {
        Some(front) => front
            .iter()
            .rev()
            .take_while(|byte| matches!(**byte, b' ' | b'\t'))
            .count(),
        None => 0,
    }
}

// A line without so many blanks before it, or as many as it has.
fn without_blanks(line: &[u8], count: usize) -> &[u8] {
    let mut rest = line;
    for _ in 0..count {
        match rest {
            [b' ' | b'\t', behind @ ..] => rest = behind,
            _ => return rest,
        }
    }
    rest
}

/// These bytes of a chart as lines, each with its end, without the blanks before the first one; of many lines the first ones. The one
/// error is that memory was refused.
pub fn lines_at(alloc: Global, chart: &Chart, span: Span) -> Result<Vec<u8>, AllocError> {
    let column = column_of(&chart.text, span.from as usize);
    let mut lines = Vec::new(alloc);
    let mut count = 0usize;
    for line in chart.bytes(span).split(|byte| *byte == b'\n') {
        if count >= MOST_LINES {
            append(&mut lines, b"...\n")?;
            return Ok(lines);
        }
        append(&mut lines, without_blanks(line, column))?;
        append(&mut lines, b"\n")?;
        count = count.saturating_add(1);
    }
    Ok(lines)
}

/// The name of a program type.
pub fn program_name(chart: &Chart, program: usize) -> &[u8] {
    name_of(chart, Item::ProgramType { program })
}

/// The name of what is declared; nothing where it has none.
pub fn name_of(chart: &Chart, item: Item) -> &[u8] {
    let Some(entry) = chart.outline.entry_of(item) else {
        return b"";
    };
    match entry.name {
        Some(name) => chart.bytes(name),
        None => b"",
    }
}

// What a thing is, in words, and the program type that it is in.
fn kind_of(item: Item) -> (&'static str, Option<usize>) {
    match item {
        Item::ProgramType { .. } => ("program type", None),
        Item::Local { program, .. } => ("variable", Some(program)),
        Item::External { program, .. } => ("external variable", Some(program)),
        Item::Step { program, .. } => ("step", Some(program)),
        Item::Association { program, .. } => ("association", Some(program)),
        Item::Transition { program, .. }
        | Item::Preceding { program, .. }
        | Item::Following { program, .. } => ("transition", Some(program)),
        Item::Condition { program, .. } => ("condition", Some(program)),
        Item::Action { program, .. } => ("action", Some(program)),
        Item::Statement { program, .. } => ("statement", Some(program)),
        Item::Configuration => ("configuration", None),
        Item::Global { .. } => ("global variable", None),
        Item::Task { .. } => ("task", None),
        Item::Instance { .. } => ("program instance", None),
    }
}

// Tells what is declared, and where.
fn tell_kind(card: &mut Card, chart: &Chart, item: Item) -> Result<(), AllocError> {
    let (kind, program) = kind_of(item);
    let mut words = Vec::from_slice(card.alloc(), kind.as_bytes())?;
    if let Some(program) = program {
        append(&mut words, b" of PROGRAM ")?;
        append(&mut words, program_name(chart, program))?;
    }
    card.tell_words(words)
}

// What is told of something that is declared.
fn tell_item(card: &mut Card, chart: &Chart, item: Item) -> Result<(), AllocError> {
    let alloc = card.alloc();
    let Some(entry) = chart.outline.entry_of(item) else {
        return Ok(());
    };
    card.show(lines_at(alloc, chart, entry.span)?)?;
    tell_kind(card, chart, item)?;
    match item {
        Item::Step { .. } => tell_step(card, chart, item),
        Item::Action { .. } => tell_action(card, chart, item),
        _ => Ok(()),
    }
}

// What is told of a qualifier.
fn tell_qualifier(card: &mut Card, page: &QualifierPage) -> Result<(), AllocError> {
    let alloc = card.alloc();
    card.tell(&[page.word.as_bytes(), b": ", page.meaning.as_bytes()])?;
    card.show(Vec::from_slice(alloc, page.diagram.as_bytes())?)
}

// What the word behind the dot of a name means.
fn part_meaning(part: &[u8]) -> &'static str {
    if is_same_word(part, b"X") {
        ".X, a BOOL: whether the step is active (2.6.2)"
    } else if is_same_word(part, b"T") {
        ".T, a TIME: how long the step is active, or was when it was left (2.6.2)"
    } else if is_same_word(part, b"Q") {
        ".Q, a BOOL: whether the action is active; FALSE in its final scan (2.6.4.5)"
    } else {
        "no part of steps or actions"
    }
}

// What is told of a part of a step or an action.
fn tell_part(
    card: &mut Card,
    chart: &Chart,
    (part, item): (&[u8], Item),
) -> Result<(), AllocError> {
    let mut words = Vec::from_slice(card.alloc(), name_of(chart, item))?;
    append(&mut words, part_meaning(part).as_bytes())?;
    card.tell_words(words)?;
    tell_item(card, chart, item)
}

/// What is told of what a word of a chart means. The one error is that memory was refused.
pub fn card_of(alloc: Global, chart: &Chart, meaning: Meaning) -> Result<Card, AllocError> {
    let mut card = Card::new(alloc);
    match meaning.sense {
        Sense::Named(declared) => tell_item(&mut card, chart, declared.item)?,
        Sense::Part(declared) => {
            let part = chart.bytes(meaning.span);
            tell_part(&mut card, chart, (part, declared.item))?;
        }
        Sense::Qualifier(page) => tell_qualifier(&mut card, page)?,
        Sense::Head(item) => tell_item(&mut card, chart, item)?,
    }
    Ok(card)
}

/// What is told of something that a chart declares. The one error is that memory was refused.
pub fn card_of_item(alloc: Global, chart: &Chart, item: Item) -> Result<Card, AllocError> {
    let mut card = Card::new(alloc);
    tell_item(&mut card, chart, item)?;
    Ok(card)
}
