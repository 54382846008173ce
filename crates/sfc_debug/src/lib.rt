//! The debugger of a resource: a clock that stands still while the resource is halted, breakpoints with conditions, single scans,
//! and a trace.
//!
//! - `break_condition`: the table of conditions.
//! - `breakpoint`, `breakpoints`: where breakpoints are set.
//! - `debugger`: a resource that is steered by commands.
//! - `hits`: whether a scan hits a breakpoint.
//! - `laws`: what the definitions mean.
//! - `mode`: running, halted, ended.
//! - `opening`: what came before, in place of the commands.
//! - `refusing`: why a command is refused that is no event.
//! - `run_clock`: when a command happens, and why it may not.
//! - `timed`: a command, and when it is given.
//! - `trace`, `trace_mask`: the newest rows of what was accepted.
#![tactic(auto)]

pub mod break_condition;
pub mod breakpoint;
mod breakpoints;
pub mod debugger;
mod hits;
pub mod laws;
pub mod mode;
pub mod opening;
mod refusing;
mod run_clock;
pub mod timed;
mod trace;
pub mod trace_mask;

// What the crates above name through this one.
pub use sfc_core;
use sfc_core::sfc_instances;
use sfc_instance::{sfc_action, sfc_image, sfc_tables};
use sfc_instances::sfc_instance;
