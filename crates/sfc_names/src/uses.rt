//! Where something that is declared is named.

use crate::chart::Chart;
use sfc_outline::mention::Declared;
use sfc_tokens::span::Span;
use std::alloc::{AllocError, Global};

/// Whether the bytes by which something is declared are wanted too.
#[derive(Clone, Copy, Debug, PartialEq, Eq)]
pub enum Uses {
    WithDeclaration,
    Alone,
}

/// The names that mean something, in text order; where it is wanted the one by which it is declared is the first. The one error is that
/// memory was refused.
pub fn uses_of(
    alloc: Global,
    chart: &Chart,
    declared: Declared,
    uses: Uses,
) -> Result<Vec<Span>, AllocError> {
    let mut spans = chart.outline.mentions_of(alloc, declared.item)?;
    if uses == Uses::WithDeclaration {
        spans.insert(0, declared.name)?;
    }
    Ok(spans)
}
