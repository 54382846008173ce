//! What an editor does with a chart in virtual time. What it asks for becomes lines that a prompt obeys, so that all of it is a script.
//!
//! - `opened`: a prompt on a chart's text; `unkept`: an archive that keeps nothing.
//! - `saying`: lines that a prompt obeys; `scanning`: scans; `burst`: scans one after the other.
//! - `back`: a session without its last commands; `laws`: what holds of what a session has said.
//! - `played`: the lines of a script that is played.
//! - `points`: breakpoints; `hits`: those that the latest scan hit.
#![tactic(auto)]

pub mod back;
pub mod burst;
pub mod hits;
pub mod laws;
pub mod opened;
pub mod played;
pub mod points;
pub mod saying;
pub mod scanning;
pub mod unkept;

// What lies deeper, under a name of this crate.
use sfc_core::sfc_instances::sfc_instance;
use sfc_debug::sfc_core;
use sfc_replay::sfc_script;
use sfc_session::sfc_output::sfc_debug;
