//! What a chart declares, as a list in text order.

use crate::chart::Chart;
use sfc_outline::entry::Entry;
use sfc_outline::item::Item;
use sfc_tokens::span::Span;
use std::alloc::{AllocError, Global};

/// What kind of thing is declared.
#[derive(Clone, Copy, Debug, PartialEq, Eq)]
pub enum Sort {
    ProgramType,
    Variable,
    Step,
    Transition,
    Action,
    Configuration,
    Task,
    Instance,
}

/// Something that is declared.
#[derive(Clone, Copy, Debug, PartialEq, Eq)]
pub struct Declaration {
    pub sort: Sort,
    /// All bytes of it.
    pub span: Span,
    /// Those of its name, or of its first word.
    pub name: Span,
    /// Those by which it is shown: its name; of a transition without one those of its steps.
    pub label: Span,
    /// Whether it stands in the program type or the configuration before it in the list.
    pub is_inner: bool,
}

// What kind of thing an entry declares; None where it is a part of one.
fn sort_of(item: Item) -> Option<Sort> {
    match item {
        Item::ProgramType { .. } => Some(Sort::ProgramType),
        Item::Local { .. } | Item::External { .. } | Item::Global { .. } => Some(Sort::Variable),
        Item::Step { .. } => Some(Sort::Step),
        Item::Transition { .. } => Some(Sort::Transition),
        Item::Action { .. } => Some(Sort::Action),
        Item::Configuration => Some(Sort::Configuration),
        Item::Task { .. } => Some(Sort::Task),
        Item::Instance { .. } => Some(Sort::Instance),
        Item::Association { .. }
        | Item::Preceding { .. }
        | Item::Following { .. }
        | Item::Condition { .. }
        | Item::Statement { .. } => None,
    }
}

// The bytes by which a thing without a name is shown: the first word of it.
fn head_of(span: Span) -> Span {
    Span {
        from: span.from,
        to: span.to.min(span.from.saturating_add(10)),
    }
}

// Which of these entries is that of something.
fn entry_among(entries: &[Entry], item: Item) -> Option<&Entry> {
    entries.iter().find(|entry| entry.item == item)
}

// The bytes from the steps before a transition up to those behind it, which are the first of the entries behind its own.
fn steps_of(item: Item, behind: &[Entry]) -> Option<Span> {
    let Item::Transition {
        program,
        transition,
    } = item
    else {
        return None;
    };
    let preceding = Item::Preceding {
        program,
        transition,
    };
    let following = Item::Following {
        program,
        transition,
    };
    let preceding = entry_among(behind, preceding)?;
    let following = entry_among(behind, following)?;
    Some(Span {
        from: preceding.span.from,
        to: following.span.to,
    })
}

// The bytes by which an entry is shown that these stand behind.
fn label_of(entry: &Entry, behind: &[Entry]) -> Span {
    if let Some(name) = entry.name {
        return name;
    }
    match steps_of(entry.item, behind) {
        Some(steps) => steps,
        None => head_of(entry.span),
    }
}

// What an entry declares that these stand behind.
fn declaration_of(entry: &Entry, behind: &[Entry]) -> Option<Declaration> {
    let sort = sort_of(entry.item)?;
    let is_inner = sort != Sort::ProgramType && sort != Sort::Configuration;
    Some(Declaration {
        sort,
        span: entry.span,
        name: entry.name.unwrap_or(head_of(entry.span)),
        label: label_of(entry, behind),
        is_inner,
    })
}

/// What a chart declares, in text order: each program type and the configuration, and what is in it behind it. The one error is that
/// memory was refused.
pub fn declarations_of(alloc: Global, chart: &Chart) -> Result<Vec<Declaration>, AllocError> {
    let mut declarations = Vec::new(alloc);
    let entries = chart.outline.entries.as_slice();
    for (number, entry) in entries.iter().enumerate() {
        let (_, behind) = entries.split_at(number.saturating_add(1).min(entries.len()));
        if let Some(declaration) = declaration_of(entry, behind) {
            declarations.push(declaration)?;
        }
    }
    Ok(declarations)
}
