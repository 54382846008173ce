//! What a document declares.

use crate::position::Range;

/// Something that a document declares: the protocol's number for its kind, its name, where it stands, and where its name does.
#[derive(Drop)]
pub struct Symbol {
    pub kind: u32,
    pub name: String,
    pub range: Range,
    pub selection: Range,
}

/// Something that a document declares, and what stands in it.
#[derive(Drop)]
pub struct Group {
    pub head: Symbol,
    pub inner: Vec<Symbol>,
}

/// Something that a document declares, as a list of several documents has it: what it stands in, the protocol's number for its kind, its
/// name, the document, and where its name stands there.
#[derive(Drop)]
pub struct Located {
    pub around: String,
    pub kind: u32,
    pub name: String,
    pub uri: String,
    pub range: Range,
}
