//! The commands of a script, over the names of a resource's plant, with their instants, and the conditions of its
//! breakpoints.
//!
//! - `laws`: what the definitions mean.
//! - `script`: whole scripts.
//! - `condition`: the conditions of breakpoints, by their texts.
//! - `conditions`: the table of conditions that a debugger is handed, of expressions; `condition_error`: why none is made.
//! - `line`: a line: an instant, and what stands behind it.
//! - `session_line`: a line of a session, which has no instant.
//! - `command`: commands: a keyword, and what stands behind it.
//! - `point`: points of charts, by their names and numbers.
//! - `names`: tasks, program instances and variables by their names.
//! - `value`, `number`: values of variables, and decimal numbers.
//! - `line_fault`: which word makes a line no command; `wanted`: what may stand in a place of a line.
//! - `split`: lines and words; `arriving`: lines of text that comes in pieces.
//! - `instant`, `repeated`: instants in their plainest form, and commands that a script says again.
#![tactic(auto)]

pub mod arriving;
pub mod command;
pub mod condition;
pub mod condition_error;
pub mod conditions;
mod instant;
pub mod laws;
mod line;
pub mod line_fault;
mod names;
pub mod number;
pub mod point;
mod repeated;
pub mod script;
pub mod session_line;
pub mod split;
mod value;
pub mod wanted;

// What the crates above name through this one.
use sfc_core::sfc_instances::sfc_instance;
pub use sfc_debug;
use sfc_debug::sfc_core;
pub use sfc_load;
use sfc_load::{sfc_check, sfc_variables};
