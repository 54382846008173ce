//! Another name for something that a chart declares.

ghost use Rattle.std.specs.Prelude.{◌≡◌, IfOk};
ghost use Rattle.sfc_names.specs.Pieces as pieces;
ghost use Rattle.sfc_names.specs.Renaming.{IsRenaming};

use crate::chart::Chart;
use crate::reading::piece_of;
use crate::sameness::have_same_tokens_but_names;
use crate::uses::{Uses, uses_of};
use sfc_base::name::is_name;
use sfc_outline::entry::Entry;
use sfc_outline::mention::{Declared, Mention};
use sfc_page::append::append;
use sfc_tokens::span::Span;
use std::alloc::{AllocError, Global};

/// Why something doesn't get another name.
#[derive(Clone, Copy, Debug, PartialEq, Eq)]
pub enum RenameFault {
    /// The chart can't be loaded as it is.
    HasFaults,
    /// The new name is none.
    NoName,
    /// The chart couldn't be loaded with it: it is taken.
    Taken,
    /// A name would mean something else.
    Captured,
}

impl RenameFault {
    /// The reason, in words.
    pub fn text(self) -> &'static str {
        match self {
            RenameFault::HasFaults => "the chart has faults",
            RenameFault::NoName =>
                "this is no name: a name has letters, digits and single underscores, and isn't a reserved word",
            RenameFault::Taken => "this name is taken: the chart would have a fault",
            RenameFault::Captured => "this name is taken: another name would mean something else",
        }
    }
}

/// The names that change, in text order; or why none does.
#[derive(Drop)]
pub enum Renaming {
    Names(Vec<Span>),
    Refused(RenameFault),
}

// The text with another name at these places, which are in text order.
#[tactic(auto, unfolding(crate::specs::Pieces::renamed))]
fn renamed(alloc: Global, text: &[u8], spans: &[Span], name: &[u8]) -> Result<Vec<u8>, AllocError>
    ensures { IfOk result (λ other. other.items ≡ pieces.renamed text.now 0 spans.now name.now) }
{
    let mut other = Vec::new(alloc);
    let mut from = 0usize;
    let mut rest = spans;
    'all: while let Some((span, behind)) = rest.split_first() {
        append(&mut other, piece_of(text, from, span.from as usize))?;
        append(&mut other, name)?;
        from = span.to as usize;
        rest = behind;
    }
    append(&mut other, piece_of(text, from, text.len()))?;
    Ok(other)
}

// Whether two names mean the same thing.
fn means_same(left: &Mention, right: &Mention) -> bool {
    match (left.declared, right.declared) {
        (Some(left), Some(right)) => left.item == right.item,
        (None, None) => true,
        _ => false,
    }
}

// Whether two charts declare the same things.
fn declare_same(left: &[Entry], right: &[Entry]) -> bool {
    left.len() == right.len()
        && left
            .iter()
            .zip(right.iter())
            .all(|(left, right)| left.item == right.item)
}

// Whether all names of two charts mean the same things.
fn mean_same(left: &[Mention], right: &[Mention]) -> bool {
    left.len() == right.len()
        && left
            .iter()
            .zip(right.iter())
            .all(|(left, right)| means_same(left, right))
}

// Why a chart isn't the other one but for a name; None where it is.
fn fault_of(chart: &Chart, other: Option<&Chart>) -> Option<RenameFault> {
    let Some(other) = other else {
        return Some(RenameFault::NoName);
    };
    if other.plant.is_none() {
        return Some(RenameFault::Taken);
    }
    let is_same = declare_same(&chart.outline.entries, &other.outline.entries)
        && mean_same(&chart.outline.mentions, &other.outline.mentions);
    if is_same {
        None
    } else {
        Some(RenameFault::Captured)
    }
}

/// The names that change where something gets another name. It does only where the chart with it loads, has the same
/// tokens but for names, declares the same things, and each of its names means the same thing. The one error is that memory was refused.
pub fn rename(
    alloc: Global,
    chart: &Chart,
    declared: Declared,
    name: &[u8],
) -> Result<Renaming, AllocError>
    ensures { IfOk result (IsRenaming chart.now.text.items name.now) }
{
    if chart.plant.is_none() {
        return Ok(Renaming::Refused(RenameFault::HasFaults));
    }
    if !is_name(name) {
        return Ok(Renaming::Refused(RenameFault::NoName));
    }
    let mut spans = uses_of(alloc, chart, declared, Uses::WithDeclaration)?;
    spans.sort_by_key(|span| span.from)?;
    let text = renamed(alloc, &chart.text, &spans, name)?;
    if !have_same_tokens_but_names(alloc, &chart.text, &text)? {
        return Ok(Renaming::Refused(RenameFault::NoName));
    }
    let other = Chart::of(alloc, &text)?;
    match fault_of(chart, other.as_ref()) {
        Some(fault) => Ok(Renaming::Refused(fault)),
        None => Ok(Renaming::Names(spans)),
    }
}
