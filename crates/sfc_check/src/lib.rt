//! Which trees of a text are expressions and statements of the typed language, and which typed trees they are
//! (IEC 61131-3:2003, 3.3).
//!
//! - `check`: the typed tree of an expression of a wanted type; `check_body`: the typed trees of statements.
//! - `family`: the operators of a text, and which of them share a rule for types.
//! - `laws`: what holds of the definitions themselves.
//! - `literal`: literals of a wanted type; `natural`: the types that expressions have by themselves.
//! - `referent`: what names in expressions stand for; `scope`: where they are looked up.
//! - `type_error`: why an expression or a statement was refused; `placed_error`: and where; `detail`: what is told of
//!   it beside.
#![tactic(auto)]

pub mod check;
pub mod check_body;
pub mod detail;
pub mod family;
pub mod laws;
pub mod literal;
mod natural;
pub mod placed_error;
pub mod referent;
pub mod scope;
pub mod type_error;
