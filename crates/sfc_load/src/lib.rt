//! The plant that a text is: names are looked up, types and limits are checked, numbers stand for what was named
//! (IEC 61131-3:2003, 2.4 to 2.7).
//!
//! - `load`: trees to plants.
//! - `scope`: what names stand for in the program types of a plant and in its instances.
//! - `laws`: what holds of loaded plants. Each law is a function with an empty body, whose contract is the law.
//! - `declaring`, `tasks`, `programs`, `instances`, `image_check`, `assembly`: the steps of loading; `image_place`: where the
//!   image is at fault.
#![tactic(auto)]

mod assembly;
mod declaring;
mod image_check;
mod image_place;
mod instances;
pub mod laws;
pub mod load;
mod programs;
pub mod scope;
mod tasks;

// What the crates above name through this one.
pub use sfc_program::{sfc_check, sfc_variables};
