//! An outline while it is made.

use crate::entry::Entry;
use crate::item::Item;
use crate::mention::{Declared, Mention};
use sfc_base::name::Name;
use sfc_tokens::placed::Placed;
use sfc_tokens::span::Span;
use std::alloc::{AllocError, Global};

/// The entries and the mentions up to here, in text order.
#[derive(Drop)]
pub struct Draft {
    pub entries: Vec<Entry>,
    pub mentions: Vec<Mention>,
}

impl Draft {
    /// One without anything.
    pub fn new(alloc: Global) -> Draft {
        Draft {
            entries: Vec::new(alloc),
            mentions: Vec::new(alloc),
        }
    }

    /// Puts something with a name last. The one error is that memory was refused.
    pub fn declare(
        &mut self,
        item: Item,
        span: Span,
        name: &Placed<Name>,
    ) -> Result<(), AllocError> {
        let name = Some(name.span());
        self.entries.push(Entry { item, span, name })?;
        Ok(())
    }

    /// Puts something without a name last. The one error is that memory was refused.
    pub fn outline(&mut self, item: Item, span: Span) -> Result<(), AllocError> {
        let name = None;
        self.entries.push(Entry { item, span, name })?;
        Ok(())
    }

    /// Puts a name last that is used, and what it means. The one error is that memory was refused.
    pub fn mention(
        &mut self,
        name: &Placed<Name>,
        declared: Option<Declared>,
    ) -> Result<(), AllocError> {
        let span = name.span();
        self.mentions.push(Mention { span, declared })?;
        Ok(())
    }
}
