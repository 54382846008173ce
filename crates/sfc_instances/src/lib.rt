//! The variables and the program instances of a plant (IEC 61131-3:2003, 2.4, 2.6 and 2.7.1).
//!
//! - `bits`: how the scans of a task's instances ended.
//! - `laws`: what the definitions mean.
//! - `instances`: the variables and the program instances, in running form.
#![tactic(auto)]

pub mod bits;
pub mod instances;
pub mod laws;

// What the crates above name through this one.
pub use sfc_instance;
use sfc_instance::{sfc_action, sfc_image, sfc_tables};
