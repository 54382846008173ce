//! What is told of steps and of actions.

use crate::card::Card;
use crate::cards::{lines_at, name_of};
use crate::chart::Chart;
use sfc_outline::entry::Entry;
use sfc_outline::item::Item;
use sfc_page::append::append;
use sfc_tokens::span::Span;
use std::alloc::{AllocError, Global};

/// The most transitions, and the most associations, that are shown one below the other.
const MOST: usize = 20;

// The innermost of what is declared in whose bytes a byte stands.
fn entry_around(chart: &Chart, place: u32) -> Option<&Entry> {
    let entries = chart.outline.entries.as_slice();
    let count = entries.partition_point(|entry| entry.span.from <= place);
    entries
        .get(..count)?
        .iter()
        .rev()
        .find(|entry| entry.span.from <= place && place < entry.span.to)
}

// The transition on whose side a step is named, where the side is the one that is asked for.
fn transition_beside(item: Item, is_into: bool) -> Option<Item> {
    match item {
        Item::Preceding {
            program,
            transition,
        } if !is_into => Some(Item::Transition {
            program,
            transition,
        }),
        Item::Following {
            program,
            transition,
        } if is_into => Some(Item::Transition {
            program,
            transition,
        }),
        _ => None,
    }
}

// The transition that names a step at these bytes, where it leads into it, or out of it.
fn transition_at(chart: &Chart, span: Span, is_into: bool) -> Option<&Entry> {
    let side = entry_around(chart, span.from)?;
    let transition = transition_beside(side.item, is_into)?;
    chart.outline.entry_of(transition)
}

// The transitions that lead into a step, or out of it, as lines; of many the first ones.
fn transitions_of(
    alloc: Global,
    chart: &Chart,
    step: Item,
    is_into: bool,
) -> Result<Vec<u8>, AllocError> {
    let mut lines = Vec::new(alloc);
    let mut left = MOST;
    for span in chart.outline.mentions_of(alloc, step)? {
        let Some(transition) = transition_at(chart, span, is_into) else {
            continue;
        };
        if left == 0 {
            append(&mut lines, b"...\n")?;
            return Ok(lines);
        }
        left = left.saturating_sub(1);
        append(&mut lines, &lines_at(alloc, chart, transition.span)?)?;
    }
    Ok(lines)
}

// Shows lines below a title, where there are any.
fn show_below(card: &mut Card, title: &[u8], lines: Vec<u8>) -> Result<(), AllocError> {
    if lines.is_empty() {
        return Ok(());
    }
    card.tell(&[title])?;
    card.show(lines)
}

/// Tells how a step is entered and left, and what it has. The one error is that memory was refused.
pub fn tell_step(card: &mut Card, chart: &Chart, step: Item) -> Result<(), AllocError> {
    let alloc = card.alloc();
    let name = name_of(chart, step);
    show_below(
        card,
        b"transitions into it:",
        transitions_of(alloc, chart, step, true)?,
    )?;
    show_below(
        card,
        b"transitions out of it:",
        transitions_of(alloc, chart, step, false)?,
    )?;
    card.tell(&[
        name,
        b".X, a BOOL: whether it is active; ",
        name,
        b".T, a TIME: how long it is, or was when it was left",
    ])
}

// The step in which an association stands.
fn step_around(chart: &Chart, place: u32) -> Option<Item> {
    let entries = chart.outline.entries.as_slice();
    let count = entries.partition_point(|entry| entry.span.from <= place);
    let step = entries
        .get(..count)?
        .iter()
        .rev()
        .find(|entry| matches!(entry.item, Item::Step { .. }))?;
    if place < step.span.to {
        Some(step.item)
    } else {
        None
    }
}

// Puts a line last of the association in which an action is named, if it is one.
fn put_association(
    lines: &mut Vec<u8>,
    alloc: Global,
    chart: &Chart,
    place: u32,
) -> Result<(), AllocError> {
    let Some(entry) = entry_around(chart, place) else {
        return Ok(());
    };
    let Item::Association { .. } = entry.item else {
        return Ok(());
    };
    if let Some(step) = step_around(chart, place) {
        append(lines, name_of(chart, step))?;
        append(lines, b": ")?;
        append(lines, &lines_at(alloc, chart, entry.span)?)?;
    }
    Ok(())
}

/// Tells which steps have an action; of many the first ones. The one error is that memory was refused.
pub fn tell_action(card: &mut Card, chart: &Chart, action: Item) -> Result<(), AllocError> {
    let alloc = card.alloc();
    let mut lines = Vec::new(alloc);
    let mentions = chart.outline.mentions_of(alloc, action)?;
    for span in mentions.iter().take(MOST) {
        put_association(&mut lines, alloc, chart, span.from)?;
    }
    if mentions.len() > MOST {
        append(&mut lines, b"...\n")?;
    }
    show_below(card, b"steps that have it:", lines)
}
