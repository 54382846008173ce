//! Why a file of tests is refused, and which of its names the chart hasn't, as reports.
//!
//! - `tests`: what is told of a file of tests.
//! - `blame`: what makes a line no line of a test; `conditions`, `expectations`, `watches`, `stimuli`, `lines`: the same by what it says.
//! - `piece`: bytes of a line; `wanted`: what may stand in their place.
//! - `meant`: a line in which names stand for words; `keyword`: the words that begin lines.
#![tactic(auto)]

mod blame;
mod conditions;
mod expectations;
mod keyword;
mod lines;
mod meant;
mod piece;
mod stimuli;
pub mod tests;
mod wanted;
mod watches;

// What the crates above name through this one.
pub use sfc_cases;
pub use sfc_why;
