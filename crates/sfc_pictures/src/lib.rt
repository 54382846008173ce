//! Charts as pictures for Graphviz. A picture shows what a chart says and what the windows on its instances tell; its text is our choice, and no
//! clause says what it is.
//!
//! - `conditions`: the conditions of transitions, as a listing has them.
//! - `draw`: a chart as Graphviz text, from bytes to bytes.
//! - `drawing`: the drawings of program types and of instances.
//! - `label`: pieces of text in labels of Graphviz.
//! - `picture_error`: why there is no picture.
//! - `quiet`: a report that writes nothing.
//! - `sheet`: what one drawing is made from.
//! - `step`: steps with their action blocks.
//! - `transition`: transitions, with the lines of forks and joins.
#![tactic(auto)]

mod conditions;
pub mod draw;
mod drawing;
mod label;
pub mod picture_error;
mod quiet;
mod sheet;
mod step;
mod transition;

// What lies deeper, under a name of this crate.
use sfc_core::sfc_instances::sfc_instance;
use sfc_debug::sfc_core;
use sfc_instance::sfc_tables;
use sfc_replay::sfc_output::{sfc_debug, sfc_list};
use sfc_replay::sfc_script;
