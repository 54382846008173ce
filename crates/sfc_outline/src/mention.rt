//! Where a name stands that means something declared.

use crate::item::Item;
use sfc_tokens::span::Span;

/// What a name means, and the bytes of the name where that is declared.
#[derive(Clone, Copy, Debug, PartialEq, Eq)]
pub struct Declared {
    pub item: Item,
    pub name: Span,
}

/// The bytes of a name that is used, and what it means; None where nothing of this name is declared, or nothing that could stand
/// there.
#[derive(Clone, Copy, Debug, PartialEq, Eq)]
pub struct Mention {
    pub span: Span,
    pub declared: Option<Declared>,
}
