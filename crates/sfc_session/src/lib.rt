//! A session: commands one after the other in virtual time, each answered with the lines that a replay writes for it, and kept as a script.
//!
//! - `laws`: what holds of a session.
//! - `scanning`: scans that have no instant; `step`: scans that may be done again.
//! - `session`: commands one after the other, and the script that they are; `saved`: the lines of that script.
#![tactic(auto)]

pub mod laws;
mod saved;
pub mod scanning;
pub mod session;
pub mod step;

// What the crates above name through this one.
pub use sfc_output;
use sfc_output::sfc_debug;
