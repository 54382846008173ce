//! Where what is read stands in the text.

use sfc_tokens::span::{NOWHERE, Span};
use sfc_tokens::token::Token;

/// The bytes of the first of these tokens.
pub fn first_span(tokens: &[Token]) -> Span {
    match tokens.first() {
        Some(token) => token.span,
        None => NOWHERE,
    }
}

/// The bytes from the first of these tokens up to the end of the last one before the rest, which are the last of them; none
/// where there is none before it.
pub fn span_between(tokens: &[Token], rest: &[Token]) -> Span {
    let from = first_span(tokens).from;
    let taken = tokens.len().saturating_sub(rest.len());
    let last = taken.checked_sub(1);
    match last.and_then(|last| tokens.get(last)) {
        Some(token) => Span {
            from,
            to: token.span.to,
        },
        None => Span { from, to: from },
    }
}
