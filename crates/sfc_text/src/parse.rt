//! Tokens to trees, by recursive descent (Annex B).
//!
//! - `chart`: transitions, actions and the elements of charts.
//! - `configuration`: the configuration, its tasks and instances.
//! - `expression`: expressions; `operator`: their operators by levels.
//! - `fault`: what keeps a parser from going on.
//! - `list`: lists of items, all alike.
//! - `place`: where what is read stands in the text.
//! - `source`: program types, and whole texts.
//! - `statement`: the bodies of actions.
//! - `step`: steps and their associations.
//! - `terminal`: single tokens.
//! - `variables`: declarations.

pub mod chart;
pub mod configuration;
pub mod expression;
pub mod fault;
pub mod list;
pub mod operator;
pub mod place;
pub mod source;
pub mod statement;
pub mod step;
pub mod terminal;
pub mod variables;
