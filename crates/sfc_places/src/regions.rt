//! Where the configuration of a text stands (B.1.7).

use crate::marks::{Mark, next};
use sfc_base::keyword::Keyword;
use sfc_tokens::token::Token;

/// The tokens from one place up to another one, which is that of the word at the end.
#[derive(Clone, Copy)]
pub struct Region {
    pub from: usize,
    pub to: usize,
}

impl Region {
    /// Whether the place lies there.
    pub fn has(self, at: usize) -> bool {
        self.from <= at && at < self.to
    }
}

/// The configuration.
pub fn configuration(tokens: &[Token]) -> Region {
    let from = next(tokens, 0, Mark::Keyword(Keyword::Configuration));
    let to = next(tokens, from, Mark::Keyword(Keyword::EndConfiguration));
    Region { from, to }
}
