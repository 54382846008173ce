//! What `sfcmon` does with charts and scripts: the commands of a script, and what they answer, as text.
//!
//! - `arriving`: lines as they come from a reader.
//! - `chart`: texts to plants.
//! - `check`: charts that are checked and listed, from bytes to bytes.
//! - `input`: a device read to its end.
//! - `laws`: what holds of the output itself.
//! - `opening`: a chart and a script, opened: a debugger, and what it is to be told.
//! - `play`: the commands of a script, one after the other.
//! - `replay`: a chart and a script, from bytes to bytes; `replay_error`: why they were not played to their end.
//! - `report`: what is written of a run; `text`: its text.
#![tactic(auto)]

pub mod arriving;
pub mod chart;
pub mod check;
pub mod input;
pub mod laws;
pub mod opening;
pub mod play;
pub mod replay;
pub mod replay_error;
pub mod report;
pub mod text;

// What the crates above name through this one.
use sfc_core::sfc_instances;
use sfc_debug::sfc_core;
use sfc_instance::{sfc_action, sfc_image, sfc_tables};
use sfc_instances::sfc_instance;
use sfc_load::sfc_variables;
pub use sfc_output;
use sfc_output::{sfc_debug, sfc_list};
pub use sfc_script;
use sfc_script::sfc_load;
