//! Tests of books, and of workers and crews in threads at a controller.
//!
//! - `sessions`: threads at a controller, and what they leave.
//! - `books`, `crews`: tests.
#![tactic(auto)]

#[cfg(test)]
mod books;
#[cfg(test)]
mod crews;
#[cfg(test)]
mod sessions;

// What the crates above name through this one.
use sfc_control::sfc_debug;
use sfc_debug::sfc_core;
