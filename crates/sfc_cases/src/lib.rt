//! What files of tests say: cases of commands and of what must hold.
//!
//! - `condition`: how the conditions of a test are read; `joined`: what they are.
//! - `deed`, `line`: what lines do; `said`: what a line says.
//! - `expecting`, `watching`, `stimulating`, `saying`: how lines are read; `test_file`: whole files.
//! - `instant`: instants of a test; `named`: names that stand for words; `words`: words of a line.
//! - `sources`: files with those that they include.
//! - `stimulus`: commands that are given beside RUN and UNTIL; `watch`: what is watched.
#![tactic(auto)]

pub mod condition;
pub mod deed;
mod expecting;
pub mod instant;
pub mod joined;
pub mod line;
pub mod named;
mod said;
mod saying;
pub mod sources;
mod stimulating;
pub mod stimulus;
pub mod test_file;
pub mod watch;
mod watching;
pub mod words;

// What the crates above name through this one.
use sfc_core::sfc_instances::sfc_instance;
use sfc_debug::sfc_core;
use sfc_instance::sfc_action;
pub use sfc_script;
use sfc_script::sfc_load;
