//! Where warnings stand in a text, and which of them it allows there.

use crate::finding::{Finding, Site};
use crate::kind::Kind;
use crate::pragmas::Allowed;
use sfc_outline::entry::Entry;
use sfc_outline::item::Item;
use sfc_outline::outline::Outline;
use sfc_tokens::span::Span;
use std::alloc::{AllocError, Global};

/// What the numbers of an item count up to, at most: a text has fewer bytes.
const NUMBERS: u64 = 2_097_152;

/// An entry of an outline by a number that stands for its item.
#[derive(Clone, Copy)]
struct Numbered {
    key: u64,
    entry: Entry,
}

/// Where what a text declares stands, found by what it is.
#[derive(Drop)]
pub struct Places {
    // of those that are told of, by their numbers
    entries: Vec<Numbered>,
    // the bytes of elements, by where they begin; none where no warning is allowed
    elements: Vec<Span>,
}

// The number of a kind of items, the place of its program type, and its own.
fn parts_of(item: Item) -> (u64, usize, usize) {
    match item {
        Item::ProgramType { program } => (0, program, 0),
        Item::Local { program, local } => (1, program, local),
        Item::External { program, external } => (2, program, external),
        Item::Step { program, step } => (3, program, step),
        Item::Association {
            program,
            association,
        } => (4, program, association),
        Item::Transition {
            program,
            transition,
        } => (5, program, transition),
        Item::Preceding {
            program,
            transition,
        } => (6, program, transition),
        Item::Following {
            program,
            transition,
        } => (7, program, transition),
        Item::Condition {
            program,
            transition,
        } => (8, program, transition),
        Item::Action { program, action } => (9, program, action),
        Item::Statement {
            program,
            action,
            statement,
        } => (
            10,
            program,
            action.saturating_mul(4_096).saturating_add(statement),
        ),
        Item::Configuration => (11, 0, 0),
        Item::Global { global } => (12, 0, global),
        Item::Task { task } => (13, 0, task),
        Item::Instance { instance } => (14, 0, instance),
    }
}

// A number that stands for an item; others may have it too.
fn key_of(item: Item) -> u64 {
    let (kind, program, own) = parts_of(item);
    kind.wrapping_mul(NUMBERS)
        .wrapping_add(program as u64)
        .wrapping_mul(NUMBERS)
        .wrapping_add(own as u64)
}

// The numbers of what is told of, in rising order.
fn keys_of(alloc: Global, findings: &[Finding]) -> Result<Vec<u64>, AllocError> {
    let mut keys = Vec::new(alloc);
    for finding in findings {
        if let Site::Item(item) = finding.site {
            keys.push(key_of(item))?;
        }
    }
    keys.sort()?;
    Ok(keys)
}

// The entries with these numbers, which rise, by their numbers.
fn entries_with(
    alloc: Global,
    entries: &[Entry],
    keys: &[u64],
) -> Result<Vec<Numbered>, AllocError> {
    let mut found = Vec::new(alloc);
    for entry in entries {
        let key = key_of(entry.item);
        if keys.binary_search(&key).is_ok() {
            found.push(Numbered { key, entry: *entry })?;
        }
    }
    found.sort_by_key(|numbered| numbered.key)?;
    Ok(found)
}

// The bytes of elements, by where they begin.
fn elements_of(alloc: Global, entries: &[Entry]) -> Result<Vec<Span>, AllocError> {
    let mut elements = Vec::new(alloc);
    for entry in entries {
        elements.push(entry.span)?;
    }
    elements.sort_by_key(|span| span.from)?;
    Ok(elements)
}

impl Places {
    /// Those of an outline of which something is told, and where some warnings are allowed those of all elements. The one error is that
    /// memory was refused.
    pub fn of(
        alloc: Global,
        outline: &Outline,
        findings: &[Finding],
        allowed: &[Allowed],
    ) -> Result<Places, AllocError> {
        let keys = keys_of(alloc, findings)?;
        let elements = if allowed.is_empty() {
            Vec::new(alloc)
        } else {
            elements_of(alloc, &outline.entries)?
        };
        Ok(Places {
            entries: entries_with(alloc, &outline.entries, &keys)?,
            elements,
        })
    }

    // Where something is declared.
    fn entry_of(&self, item: Item) -> Option<Entry> {
        let key = key_of(item);
        let first = self.entries.partition_point(|numbered| numbered.key < key);
        for numbered in self.entries.get(first..)? {
            if numbered.key != key {
                return None;
            }
            if numbered.entry.item == item {
                return Some(numbered.entry);
            }
        }
        None
    }

    /// Where a warning stands.
    pub fn span_of(&self, finding: &Finding) -> Span {
        match finding.site {
            Site::Bytes(span) => span,
            Site::Item(item) => match self.entry_of(item) {
                Some(entry) => entry.name.unwrap_or(entry.span),
                None => Span { from: 0, to: 0 },
            },
        }
    }

    // Whether the bytes lie in an element that begins at a byte.
    fn lies_in(&self, from: u32, span: Span) -> bool {
        let first = self.elements.partition_point(|element| element.from < from);
        let Some(elements) = self.elements.get(first..) else {
            return false;
        };
        for element in elements {
            if element.from != from {
                return false;
            }
            if from <= span.from && span.to <= element.to {
                return true;
            }
        }
        false
    }

    /// Whether the text allows the warning.
    pub fn is_allowed(&self, allowed: &[Allowed], kind: Kind, span: Span) -> bool {
        allowed.iter().any(|one| one.kind == kind
            && one.from <= span.from
            && self.lies_in(one.from, span))
    }
}
