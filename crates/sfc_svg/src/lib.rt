//! Charts and runs in the graphic form of charts (IEC 61131-3:2003, 2.6.2 to 2.6.5), as SVG, from bytes to bytes.
//!
//! - `draw`: from bytes to bytes.
//! - `force`: what is forced of a program instance.
//! - `marking`: what the window on a program instance shows, as marks.
//! - `playing`: a script that is played on a chart.
//! - `svg`: plants and resources as SVG.
//! - `svg_error`: why there is no drawing.
#![tactic(auto)]

pub mod draw;
mod force;
mod marking;
pub mod playing;
pub mod svg;
pub mod svg_error;

// What lies deeper, under a name of this crate.
use sfc_core::sfc_instances::sfc_instance;
use sfc_debug::sfc_core;
use sfc_instance::sfc_tables;
use sfc_output::sfc_debug;
use sfc_replay::sfc_output;
