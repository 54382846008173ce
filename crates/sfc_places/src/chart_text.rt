//! A text with its tokens.

use crate::span::Span;
use sfc_tokens::token::Token;

/// A text, its tokens, and the bytes of each of them.
#[derive(Clone, Copy)]
pub struct ChartText<'a> {
    pub text: &'a [u8],
    pub tokens: &'a [Token],
    pub spans: &'a [Span],
}

impl<'a> ChartText<'a> {
    /// The bytes from a token up to another one, which is left out; nothing where they don't stand in this order.
    pub fn bytes(&self, from: usize, to: usize) -> &'a [u8] {
        let (Some(first), Some(last)) = (self.spans.get(from), self.spans.get(to)) else {
            return b"";
        };
        match self.text.get(first.from..last.from) {
            Some(bytes) => bytes,
            None => b"",
        }
    }
}
