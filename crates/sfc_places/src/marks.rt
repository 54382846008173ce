//! Tokens by their places among the tokens of a text, which are counted from 0.

use crate::chart_text::ChartText;
use sfc_base::delimiter::Delimiter;
use sfc_base::keyword::Keyword;
use sfc_tokens::lines;
use sfc_tokens::token::{Token, TokenKind};

/// What a token may be.
#[derive(Clone, Copy)]
pub enum Mark {
    /// This reserved word.
    Keyword(Keyword),
    /// This sign.
    Sign(Delimiter),
    /// Any name.
    Name,
    /// Any duration.
    Duration,
}

// Whether the token is such a one.
fn is_mark(token: &Token, mark: Mark) -> bool {
    match (&token.kind, mark) {
        (TokenKind::Keyword(found), Mark::Keyword(wanted)) => *found == wanted,
        (TokenKind::Delimiter(found), Mark::Sign(wanted)) => *found == wanted,
        (TokenKind::Name(_), Mark::Name) => true,
        (TokenKind::Duration(_), Mark::Duration) => true,
        _ => false,
    }
}

/// Whether such a token stands at the place.
pub fn is_at(tokens: &[Token], at: usize, mark: Mark) -> bool {
    match tokens.get(at) {
        Some(token) => is_mark(token, mark),
        None => false,
    }
}

/// The place of the first such token from a place on; how many tokens there are where none is.
pub fn next(tokens: &[Token], from: usize, mark: Mark) -> usize {
    for at in from..tokens.len() {
        if is_at(tokens, at, mark) {
            return at;
        }
    }
    tokens.len()
}

/// The reserved word at the place, if one stands there.
pub fn keyword_at(tokens: &[Token], at: usize) -> Option<Keyword> {
    match tokens.get(at) {
        Some(token) => match &token.kind {
            TokenKind::Keyword(keyword) => Some(*keyword),
            _ => None,
        },
        None => None,
    }
}

/// The name at the place as it was written; nothing where none stands there.
pub fn spelling_at(tokens: &[Token], at: usize) -> &[u8] {
    match tokens.get(at) {
        Some(token) => match &token.kind {
            TokenKind::Name(name) => name.spelling(),
            _ => b"",
        },
        None => b"",
    }
}

/// The line of the token at the place; 1 where none stands there.
pub fn line_at(chart: &ChartText<'_>, at: usize) -> u32 {
    match chart.tokens.get(at) {
        Some(token) => lines::line_at(chart.text, token.span.from),
        None => 1,
    }
}

/// The place so many tokens behind this one.
pub fn behind(at: usize, more: usize) -> usize {
    at.saturating_add(more)
}
