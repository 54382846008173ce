//! The text of a chart, by lines.

use sfc_events::read_error::ReadErrorKind;
use sfc_outline::entry::Entry;
use sfc_outline::item::Item;
use sfc_outline::outline::{Outline, outline_of_plant};
use sfc_plant::plant::Plant;
use sfc_text::read::read;
use sfc_tokens::lines::line_at;
use sfc_tokens::span::Span;
use std::alloc::{AllocError, Global};

/// The text of a chart, and where it declares what.
#[derive(Drop)]
pub struct Chart {
    pub text: Vec<u8>,
    pub outline: Outline,
}

/// An element of a program type at which a breakpoint may stand.
#[derive(Clone, Copy, Debug, PartialEq, Eq)]
pub struct Element {
    /// What it is.
    pub item: Item,
    /// The line of its first word, counted from 1.
    pub line: u32,
}

// The outline of a plant that was loaded from this text; an empty one where it is none.
fn outline_of_text(alloc: Global, text: &[u8], plant: &Plant) -> Result<Outline, AllocError> {
    match read(alloc, text) {
        Ok(source) => outline_of_plant(alloc, text, &source, plant),
        Err(error) if error.kind == ReadErrorKind::Memory => Err(AllocError),
        Err(_) => Ok(Outline {
            entries: Vec::new(alloc),
            mentions: Vec::new(alloc),
        }),
    }
}

// The bytes of a line, which is counted from 1, without its end; None where the text hasn't so many.
fn span_of_line(text: &[u8], line: u32) -> Option<Span> {
    let mut number: u32 = 1;
    let mut from: usize = 0;
    for piece in text.split(|byte| *byte == b'\n') {
        let to = from.saturating_add(piece.len());
        if number == line {
            return Some(Span {
                from: u32::try_from(from).ok()?,
                to: u32::try_from(to).ok()?,
            });
        }
        number = number.saturating_add(1);
        from = to.saturating_add(1);
    }
    None
}

// Whether a breakpoint may stand there.
fn is_element(item: Item) -> bool {
    matches!(
        item,
        Item::Step { .. } | Item::Transition { .. } | Item::Action { .. }
    )
}

// Whether bytes of an element stand on a line.
fn is_on(entry: &Entry, line: Span) -> bool {
    is_element(entry.item) && entry.span.from <= line.to && line.from < entry.span.to
}

impl Chart {
    /// The text of a plant. The one error is that memory was refused.
    pub fn of_text(alloc: Global, text: Vec<u8>, plant: &Plant) -> Result<Chart, AllocError> {
        let outline = outline_of_text(alloc, &text, plant)?;
        Ok(Chart { text, outline })
    }

    // The element of an entry.
    fn element(&self, entry: &Entry) -> Element {
        Element {
            item: entry.item,
            line: line_at(&self.text, entry.span.from),
        }
    }

    /// The first step, transition or action of which a byte stands on a line, or around which a line stands; None where there is none. A line
    /// is counted from 1.
    pub fn element_at(&self, line: u32) -> Option<Element> {
        let line = span_of_line(&self.text, line)?;
        for entry in &self.outline.entries {
            if is_on(entry, line) {
                return Some(self.element(entry));
            }
        }
        None
    }

    /// The line of the first word of what is declared, counted from 1; 1 where it isn't found.
    pub fn line_of(&self, item: Item) -> u32 {
        match self.outline.entry_of(item) {
            Some(entry) => line_at(&self.text, entry.span.from),
            None => 1,
        }
    }

    /// The lines at which elements begin, in text order. The one error is that memory was refused.
    pub fn first_lines(&self, alloc: Global) -> Result<Vec<u32>, AllocError> {
        let mut lines = Vec::new(alloc);
        let mut line: u32 = 1;
        let mut behind: usize = 0;
        for entry in &self.outline.entries {
            if is_element(entry.item) {
                let place = entry.span.from as usize;
                let between = self.text.get(behind..place).unwrap_or(b"");
                line = line.saturating_add(line_at(between, u32::MAX).saturating_sub(1));
                behind = behind.max(place);
                lines.push(line)?;
            }
        }
        Ok(lines)
    }
}
