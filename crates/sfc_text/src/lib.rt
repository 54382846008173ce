//! The text of charts: tokens to trees (IEC 61131-3:2003, Annex B). Tokens, and the text of a TIME value, are those of
//! `sfc_tokens`, whose calls stand here too.
//!
//! - `expression`, `statement`: the trees of expressions and of statements.
//! - `laws`: what holds of the grammar itself.
//! - `parse`: tokens to trees.
//! - `read`: a whole text to its tree; `read_expr`: a text that is one expression to its tree.
//! - `tree`: the trees of charts and configurations.
#![tactic(auto)]

pub mod expression;
pub mod laws;
mod parse;
pub mod read;
pub mod read_expr;
pub mod statement;
pub mod tree;

pub use sfc_events::read_error::{ReadError, ReadErrorKind};
pub use sfc_tokens::lex::tokens;
