//! The runtime as a C library; `include/sfc.h` has each function for C.
//!
//! - `life`: opening, closing and checking; `opening`, `fault`: texts to debuggers, and why a text is none.
//! - `commands`: commands by number; `reply`, `point`: what C reads of answers and points.
//! - `scripting`: lines of scripts, and the image as text; `asked`: what a line asks; `obeying`: what is done for it.
//! - `finding`: numbers by names; `locating`: variables by locations; `naming`: counts and names; `kind`: what has a name.
//! - `reading`: what is read without a command; `placed`: where a fault is; `showing`: steps, transitions and actions; `image`: all
//!   variables; `tasks`: tasks.
//! - `explaining`: what numbers mean.
//! - `about`: what a variable is, and where it lies.
//! - `next`: the scan that comes next; `advancing`: scans up to an instant, `advanced`: what is told of them; `scanning`: how they are made.
//! - `saving`: what a resource leaves, saved and gone back to.
//! - `waiting`: breakpoints with conditions that are read then.
//! - `why`: why a chart is refused, as text and as fields.
//! - `version`: the version.
//! - `handle`: a resource on the heap, as one word that C keeps; `loose`: a box as its pointer; `plc`: a resource; `saved`: what it leaves.
//! - `number`, `status`, `giving`: what C reads of values and calls, and texts for a caller's buffer.
#![tactic(auto)]

pub mod about;
pub mod advanced;
pub mod advancing;
mod asked;
pub mod commands;
pub mod explaining;
pub mod fault;
pub mod finding;
mod giving;
pub mod handle;
pub mod image;
mod kind;
pub mod life;
mod locating;
mod loose;
pub mod naming;
pub mod next;
mod number;
mod obeying;
mod opening;
mod placed;
pub mod plc;
mod point;
pub mod reading;
pub mod reply;
pub mod saved;
pub mod saving;
mod scanning;
pub mod scripting;
pub mod showing;
mod status;
pub mod tasks;
pub mod version;
pub mod waiting;
pub mod why;

// What lies deeper, under a name of this crate.
use sfc_core::sfc_instances::sfc_instance;
use sfc_debug::sfc_core;
use sfc_output::sfc_debug;
use sfc_replay::{sfc_output, sfc_script};
use sfc_script::sfc_load::sfc_variables;
