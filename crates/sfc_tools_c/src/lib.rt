//! What the program tells of a chart, of a script on it and of its tests, for C: text to text; `include/sfc_tools.h` has each function for C.
//!
//! - `charts`: of charts alone; `scripts`: of scripts on them; `tests`: of their tests.
//! - `answering`: texts for a caller's buffer.
#![tactic(auto)]

mod answering;
pub mod charts;
pub mod scripts;
pub mod tests;
