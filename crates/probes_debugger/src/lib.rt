//! Tests of the debugger's and the core's own calls, and of openings.
//!
//! - `bench`: a resource, and all that it shows as text; `stations`: a chart with events.
//! - `debugger`, `openings`, `resource`, `scans`: tests.
#![tactic(auto)]

#[cfg(test)]
mod bench;
#[cfg(test)]
mod debugger;
#[cfg(test)]
mod openings;
#[cfg(test)]
mod resource;
#[cfg(test)]
mod scans;
#[cfg(test)]
mod stations;

// What the crates above name through this one.
use sfc_core::sfc_instances::sfc_instance;
use sfc_debug::sfc_core;
use sfc_script::sfc_debug;
use sfc_script::sfc_load::sfc_check;
