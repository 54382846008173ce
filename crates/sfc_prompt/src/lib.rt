//! A prompt at which a chart is stepped by hand in virtual time: lines as they come, each a command of a script or a word that shows how
//! all stands, each answered at once.
//!
//! - `archive`: where scripts are kept.
//! - `arrived`: lines that have come.
//! - `desk`: lines as they come from a reader.
//! - `expression`: conditions by their texts.
//! - `laws`: what holds of what a session has written.
//! - `line`, `words`: what a line says.
//! - `prompt`: lines that are obeyed one by one.
//! - `course`: steps one after the other.
//! - `showing`: the words that change nothing.
//! - `spoken`: texts that should be commands of a script.
#![tactic(auto)]

pub mod archive;
mod arrived;
mod course;
pub mod desk;
mod expression;
pub mod laws;
mod line;
pub mod prompt;
mod showing;
mod spoken;
mod words;

// What lies deeper, under a name of this crate.
use sfc_debug::sfc_core::sfc_instances::sfc_instance;
use sfc_replay::sfc_script;
use sfc_script::sfc_load::sfc_check;
use sfc_session::sfc_output::sfc_debug;
