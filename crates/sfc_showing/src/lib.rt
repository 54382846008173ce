//! What editors show of a chart that is stepped: what variables, steps, actions and transitions read, where a program instance stands, and
//! where that is in the text. Nothing of it changes a session.
//!
//! - `chart`: the text of a chart, by lines.
//! - `own`, `shown`: what variables, steps, actions and transitions read; `frames`: where a program instance stands.
//! - `evaluate`: expressions.
//! - `watches`: values that are looked at behind each scan.
#![tactic(auto)]

pub mod chart;
pub mod evaluate;
pub mod frames;
pub mod own;
pub mod shown;
pub mod watches;

// What lies deeper, under a name of this crate.
use sfc_core::sfc_instances::sfc_instance;
use sfc_load::sfc_check;
use sfc_output::sfc_debug::sfc_core;
use sfc_replay::sfc_script::sfc_load;
