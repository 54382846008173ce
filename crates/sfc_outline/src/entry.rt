//! Where a text declares something.

use crate::item::Item;
use sfc_tokens::span::Span;

/// What is declared, all bytes of it, and those of its name if it has one. The bytes go from the first word up to the END word
/// or the semicolon; a condition's and a statement's end before it. Variables that are declared together share theirs, and a
/// name behind VAR_EXTERNAL has its own alone.
#[derive(Clone, Copy, Debug, PartialEq, Eq)]
pub struct Entry {
    pub item: Item,
    pub span: Span,
    pub name: Option<Span>,
}
