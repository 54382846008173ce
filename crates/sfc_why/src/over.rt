//! A plant, and the text of its chart.

use crate::sfc_core::resource::Resource;
use crate::sfc_places::chart_text::ChartText;
use crate::sfc_places::spaces::program_named;
use crate::sfc_places::span::{Span, spans_of};
use crate::sfc_places::tree_text::TreeText;
use sfc_base::ids::ProgId;
use sfc_text::read::read;
use sfc_text::tree::{Program, Source};
use sfc_tokens::lex::tokens;
use sfc_tokens::token::Token;
use std::alloc::{AllocError, Global};

/// The text of a chart that is read: its tree, its tokens and their bytes.
#[derive(Drop)]
pub struct Opened {
    source: Source,
    tokens: Vec<Token>,
    spans: Vec<Span>,
}

impl Opened {
    /// The text of a chart that has no fault. The one error is that memory was refused.
    pub fn of(alloc: Global, text: &[u8]) -> Result<Opened, AllocError> {
        let Ok(source) = read(alloc, text) else {
            return Err(AllocError);
        };
        let Ok(tokens) = tokens(alloc, text) else {
            return Err(AllocError);
        };
        let spans = spans_of(alloc, &tokens)?;
        Ok(Opened {
            source,
            tokens,
            spans,
        })
    }

    /// The text, which is the one that was opened, with its tokens.
    pub fn chart<'a>(&'a self, text: &'a [u8]) -> ChartText<'a> {
        ChartText {
            text,
            tokens: self.tokens.as_slice(),
            spans: self.spans.as_slice(),
        }
    }

    /// The same with its tree.
    pub fn tree<'a>(&'a self, chart: &'a ChartText<'a>) -> TreeText<'a> {
        TreeText {
            chart,
            source: &self.source,
        }
    }
}

/// A plant, and the text of its chart.
#[derive(Clone, Copy)]
pub struct Over<'a> {
    pub resource: &'a Resource,
    pub text: &'a TreeText<'a>,
}

impl<'a> Over<'a> {
    /// The program type of an instance.
    pub fn program_of(&self, instance: ProgId) -> Option<&'a Program> {
        let found = self.resource.plant().type_of(instance)?;
        program_named(self.text.source, found.name.spelling())
    }
}
