//! Charts for tests in code.
//!
//! - `charts`: their texts, and a script and what it prints; `loaded`: a text as a plant.
#![tactic(auto)]

pub mod charts;
pub mod loaded;

// What the crates above name through this one.
pub use sfc_load;
use sfc_load::{sfc_check, sfc_variables};
