//! The text of a loaded plant (IEC 61131-3:2003, Annex B).
//!
//! - `list`: a plant to its text, and into a writer; `list_expr`: an expression of an instance into a writer.
//! - `program`, `configuration`: the two kinds of blocks that a text has.
//! - `variables`, `step`, `transition`, `action`: what stands in them; `statement`, `expression`: what stands in bodies
//!   and conditions; `value`: types, literals and locations.
//! - `layout`: lines and indentation; `sink`: writing that stops at the first fault.
#![tactic(auto)]

mod action;
mod configuration;
mod expression;
mod layout;
pub mod list;
pub mod list_expr;
mod program;
mod sink;
mod statement;
mod step;
mod transition;
mod value;
mod variables;
