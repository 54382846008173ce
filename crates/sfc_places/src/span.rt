//! Where the tokens of a text lie among its bytes.

use sfc_tokens::span::Span as TextSpan;
use sfc_tokens::token::Token;
use std::alloc::{AllocError, Global};

/// The bytes from one place up to another one.
#[derive(Clone, Copy, PartialEq, Eq)]
pub struct Span {
    pub from: usize,
    pub to: usize,
}

impl Span {
    /// The bytes that a token, a tree or a fault has.
    pub fn of(span: TextSpan) -> Span {
        Span {
            from: span.from as usize,
            to: span.to as usize,
        }
    }
}

/// How many bytes the character at the front has (UTF-8); 1 where it is none.
pub fn character_length(bytes: &[u8]) -> usize {
    match bytes {
        [0xc2..=0xdf, 0x80..=0xbf, ..] => 2,
        [0xe0, 0xa0..=0xbf, 0x80..=0xbf, ..] => 3,
        [0xed, 0x80..=0x9f, 0x80..=0xbf, ..] => 3,
        [0xe1..=0xec | 0xee..=0xef, 0x80..=0xbf, 0x80..=0xbf, ..] => 3,
        [0xf0, 0x90..=0xbf, 0x80..=0xbf, 0x80..=0xbf, ..] => 4,
        [0xf1..=0xf3, 0x80..=0xbf, 0x80..=0xbf, 0x80..=0xbf, ..] => 4,
        [0xf4, 0x80..=0x8f, 0x80..=0xbf, 0x80..=0xbf, ..] => 4,
        _ => 1,
    }
}

/// The bytes of each token. The one error is that memory was refused.
pub fn spans_of(alloc: Global, tokens: &[Token]) -> Result<Vec<Span>, AllocError> {
    let mut spans = Vec::new(alloc);
    for token in tokens {
        spans.push(Span::of(token.span))?;
    }
    Ok(spans)
}
