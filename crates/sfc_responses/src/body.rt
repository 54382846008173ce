//! What a response tells.

use crate::symbol::{Group, Located};

/// What a response tells.
#[derive(Clone, Copy)]
pub enum Body<'a> {
    /// What a document declares, in order.
    Symbols(&'a [Group]),
    /// What documents declare, in order, each with the document.
    List(&'a [Located]),
    /// Numbers, under the name `data`: of the words of a document, five for each.
    Data(&'a [usize]),
}
