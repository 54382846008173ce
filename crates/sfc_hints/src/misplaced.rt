//! A token that can't stand where it does.

use crate::surroundings::element_before;
use crate::trial::{Goal, Outcome, try_front};
use sfc_base::keyword::Keyword;
use sfc_places::chart_text::ChartText;
use sfc_places::finding::Element;
use sfc_places::marks::{Mark, is_at, keyword_at, spelling_at};
use sfc_tokens::token::TokenKind;
use std::alloc::{AllocError, Global};

/// A token that can't stand where it does, and the text before it.
#[derive(Clone, Copy)]
pub struct Misplaced<'a> {
    pub chart: ChartText<'a>,
    /// Its place among the tokens; how many there are at the end of the text.
    pub index: usize,
    /// What the text is to be read as.
    pub goal: Goal,
    /// A front of the text before it, behind which may stand what may stand there.
    pub front: &'a [u8],
}

impl<'a> Misplaced<'a> {
    /// The place of the token before it, and the one of the token before that.
    pub fn back(&self, count: usize) -> Option<usize> {
        self.index.checked_sub(count)
    }

    /// Whether such a token stands so many places before it.
    pub fn has_before(&self, count: usize, mark: Mark) -> bool {
        match self.back(count) {
            Some(at) => is_at(self.chart.tokens, at, mark),
            None => false,
        }
    }

    /// The name so many places before it; nothing where none stands there.
    pub fn name_before(&self, count: usize) -> &'a [u8] {
        match self.back(count) {
            Some(at) => spelling_at(self.chart.tokens, at),
            None => b"",
        }
    }

    /// Whether it is such a token.
    pub fn is(&self, mark: Mark) -> bool {
        is_at(self.chart.tokens, self.index, mark)
    }

    /// The byte at which it begins.
    pub fn from(&self) -> usize {
        match self.chart.spans.get(self.index) {
            Some(span) => span.from,
            None => self.chart.text.len(),
        }
    }

    /// The bytes of the token at a place; none where there is no such token.
    pub fn bytes_at(&self, at: usize) -> &'a [u8] {
        match self.chart.spans.get(at) {
            Some(span) => self.chart.text.get(span.from..span.to).unwrap_or(b""),
            None => b"",
        }
    }

    /// Its bytes.
    pub fn bytes(&self) -> &'a [u8] {
        self.bytes_at(self.index)
    }

    /// The reserved word that it is, if it is one.
    pub fn keyword(&self) -> Option<Keyword> {
        keyword_at(self.chart.tokens, self.index)
    }

    /// The element in which it stands; that of a condition which stands alone is the text.
    pub fn element(&self) -> Element {
        match self.goal {
            Goal::Chart => element_before(self.chart.tokens, self.index),
            Goal::Expression => Element::Text,
        }
    }

    /// The bytes between the token before it and it.
    pub fn gap(&self) -> &'a [u8] {
        let begin = match self.back(1) {
            Some(at) => match self.chart.spans.get(at) {
                Some(span) => span.to,
                None => 0,
            },
            None => 0,
        };
        self.chart.text.get(begin..self.from()).unwrap_or(b"")
    }

    /// Whether this may stand in its place.
    pub fn takes(&self, alloc: Global, more: &str) -> Result<bool, AllocError> {
        let outcome = try_front(alloc, self.goal, self.front, more.as_bytes())?;
        Ok(outcome != Outcome::Wrong)
    }

    /// Whether an integer stands at a place, if there is one.
    pub fn is_number_at(&self, at: Option<usize>) -> bool {
        match at.and_then(|at| self.chart.tokens.get(at)) {
            Some(token) => matches!(token.kind, TokenKind::Integer(_)),
            None => false,
        }
    }

    /// Whether it is an integer.
    pub fn is_number(&self) -> bool {
        self.is_number_at(Some(self.index))
    }
}
