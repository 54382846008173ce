//! Cases of tests that are run, each over a fresh resource in virtual time, and whether they pass.
//!
//! - `bench`: a debugger on which cases are run; `turn`: whose turn it is; `due`: which stimulus comes next.
//! - `given`: commands that were given; `trail`: those that were accepted.
//! - `case`: the lines of a case; `complaint`: what is wrong in one.
//! - `judge`: cases that are run, and what becomes of them; `pending`: what is watched meanwhile.
//! - `laws`: what holds of the definitions.
#![tactic(auto)]

pub mod bench;
pub mod case;
pub mod complaint;
mod due;
pub mod given;
pub mod judge;
pub mod laws;
mod pending;
pub mod trail;
mod turn;

// What lies deeper, under a name of this crate.
use sfc_cases::sfc_script::sfc_debug;
use sfc_core::sfc_instances::sfc_instance;
use sfc_debug::sfc_core;
