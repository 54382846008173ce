//! Program types of a text: names are looked up, types are checked, numbers stand for what was named
//! (IEC 61131-3:2003, 2.5.3, 2.6).
//!
//! - `load`: the trees of a program type to it.
//! - `limits`: how much there may be; `element_names`: the names of steps, actions and transitions.
//! - `scope`: what a name stands for while it is loaded; `type_scope`: and once it was.
//! - `associations`: steps with their associations; `transitions`: transitions with their steps and
//!   conditions; `actions`: actions with a body.
#![tactic(auto)]

mod actions;
mod associations;
mod element_names;
mod limits;
pub mod load;
mod scope;
mod transitions;
pub mod type_scope;

// What the crates above name through this one.
pub use sfc_check;
pub use sfc_variables;
