//! What the program tells of a chart, of a script on it and of its tests: texts to a text.
//!
//! - `telling`: where the faults of charts, scripts and tests are; `listing`: a chart in one layout.
//! - `playing`: a script on a chart; `drawing`: charts as SVG; `waving`: signals.
//! - `covering`: what a script never reaches; `testing`: tests and their outcome.
//! - `asking`: questions at a prompt, behind a script.
//! - `tool_error`: why there is no text; `reading`: charts and scripts that are read first.
#![tactic(auto)]

pub mod asking;
pub mod covering;
pub mod drawing;
pub mod listing;
pub mod playing;
mod reading;
pub mod telling;
pub mod testing;
pub mod tool_error;
pub mod waving;

// What lies deeper, under a name of this crate.
use sfc_debug::sfc_core;
use sfc_output::sfc_debug;
use sfc_replay::{sfc_output, sfc_script};
