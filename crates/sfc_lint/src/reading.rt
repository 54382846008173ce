//! What was read of a text.

use sfc_outline::outline::Outline;
use sfc_tokens::token::Token;

/// What was read of a text: its bytes, its tokens, and what it declares and names.
#[derive(Clone, Copy)]
pub struct Reading<'a> {
    pub text: &'a [u8],
    pub tokens: &'a [Token],
    pub outline: &'a Outline,
}
