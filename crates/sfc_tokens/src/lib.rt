//! The tokens of charts (IEC 61131-3:2003, 2.1, 2.2 and Annex B.1.1 to B.1.4).
//!
//! - `duration`: a word that is one duration; `lex_duration`: the parts of one.
//! - `laws`: what holds of the definitions themselves.
//! - `literal`: what stands behind the prefix of a literal; `number`: its integers; `lex_location`: how a location is
//!   written.
//! - `lex`: a whole text to its tokens; `lex_fault`: what keeps the lexer from going on; `refusal`: why a text is refused,
//!   and where.
//! - `token`: tokens, each with its bytes; `span`, `lines`: the bytes and the lines of a text.
//! - `placed`: what a text says, with the bytes that say it.
#![tactic(auto)]

pub mod duration;
pub mod laws;
pub mod lex;
mod lex_duration;
mod lex_fault;
mod lex_location;
pub mod lines;
mod literal;
mod number;
pub mod placed;
pub mod refusal;
pub mod span;
pub mod token;
