//! Tests of the editors' protocols: frames in pieces, faults by name, devices that fail, and what messages say as JSON.
//!
//! - `drip`: a reader that gives little at a time, and fails once.
//! - `framing`, `rpc`, `dap`: tests.
#![tactic(auto)]

#[cfg(test)]
mod dap;
#[cfg(test)]
mod drip;
#[cfg(test)]
mod framing;
#[cfg(test)]
mod rpc;

// What the crates above name through this one.
use sfc_wire::sfc_frames;
