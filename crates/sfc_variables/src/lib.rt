//! The variables of a text: names are looked up, locations and initial values are checked (IEC 61131-3:2003, 2.4).
//!
//! - `declaration`: one declared name to a variable; `globals`: the global variables.
//! - `own`: the variables of a program type, its own ones and the globals that it names.
//! - `located`: where a variable lies.
#![tactic(auto)]

pub mod declaration;
pub mod globals;
pub mod located;
pub mod own;

// What the crates above name through this one.
pub use sfc_check;
