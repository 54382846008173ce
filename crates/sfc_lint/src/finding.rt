//! Warnings.

use crate::kind::Kind;
use sfc_outline::item::Item;
use sfc_page::append::append;
use sfc_tokens::span::Span;
use std::alloc::{AllocError, Global};

/// Where a warning stands.
#[derive(Clone, Copy, Debug, PartialEq, Eq)]
pub enum Site {
    /// At what is declared, or at a part of it.
    Item(Item),
    /// At these bytes of the text.
    Bytes(Span),
}

/// A warning: what kind, of what in the chart, and in words.
#[derive(Drop)]
pub struct Finding {
    pub kind: Kind,
    /// What it is told of.
    pub site: Site,
    /// What is wrong, in one line without its end.
    pub text: Vec<u8>,
    /// What else is told, in lines that begin with two blanks.
    pub more: Vec<u8>,
}

/// Warnings that are put one behind the other.
#[derive(Drop)]
pub struct Findings {
    alloc: Global,
    pub list: Vec<Finding>,
}

impl Findings {
    /// None.
    pub fn new(alloc: Global) -> Findings {
        Findings {
            alloc,
            list: Vec::new(alloc),
        }
    }

    /// What allocates.
    pub fn alloc(&self) -> Global {
        self.alloc
    }

    /// Puts a warning of something that is declared, whose text is these parts. The one error is that memory was refused.
    pub fn tell(&mut self, kind: Kind, item: Item, parts: &[&[u8]]) -> Result<(), AllocError> {
        self.tell_at(kind, Site::Item(item), parts)
    }

    /// Puts a warning of something that is declared, with this text. The one error is that memory was refused.
    pub fn tell_text(&mut self, kind: Kind, item: Item, text: Vec<u8>) -> Result<(), AllocError> {
        self.list.push(Finding {
            kind,
            site: Site::Item(item),
            text,
            more: Vec::new(self.alloc),
        })?;
        Ok(())
    }

    /// Puts a warning, whose text is these parts. The one error is that memory was refused.
    pub fn tell_at(&mut self, kind: Kind, site: Site, parts: &[&[u8]]) -> Result<(), AllocError> {
        let mut text = Vec::new(self.alloc);
        for part in parts {
            append(&mut text, part)?;
        }
        self.list.push(Finding {
            kind,
            site,
            text,
            more: Vec::new(self.alloc),
        })?;
        Ok(())
    }

    /// Tells a line more of the last warning. The one error is that memory was refused.
    pub fn add_line(&mut self, parts: &[&[u8]]) -> Result<(), AllocError> {
        let Some(finding) = self.list.last_mut() else {
            return Ok(());
        };
        append(&mut finding.more, b"  ")?;
        for part in parts {
            append(&mut finding.more, part)?;
        }
        append(&mut finding.more, b"\n")
    }
}
