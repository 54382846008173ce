//! One resource of a controller (IEC 61131-3:2003, 2.7.1): a plant that runs by events.
//!
//! - `changing`: what an event does with the variables and the program instances.
//! - `due`: the tasks at the instant of an event.
//! - `inputs`: which variables are inputs.
//! - `laws`: what the definitions mean.
//! - `opening`: what came before, in place of the events.
//! - `refusing`: why an event is refused.
//! - `resource`: a plant that runs.
//! - `singles`: what the SINGLE of tasks reads.
#![tactic(auto)]

mod changing;
mod due;
mod inputs;
pub mod laws;
pub mod opening;
mod refusing;
pub mod resource;
mod singles;

// What the crates above name through this one.
use sfc_instance::{sfc_action, sfc_image, sfc_tables};
pub use sfc_instances;
use sfc_instances::sfc_instance;
