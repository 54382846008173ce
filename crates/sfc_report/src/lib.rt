//! Reports: a chart, the scripts that were played on it, its tests, and what came of them, as one page that shows itself in any browser. What
//! stands in the page is handed over; here it is put together.
//!
//! - `behaviour`: what the page does.
//! - `contents`: what a report is of.
//! - `escaped`: texts in a page.
//! - `facts`: versions, files and their sums.
//! - `part`: the parts of a page.
//! - `report`: the page.
//! - `run`: a script on a chart, and what came of it.
//! - `style`: how the page looks.
//! - `tally`: how many commands, refusals and faults a run had.
#![tactic(auto)]

mod behaviour;
pub mod contents;
mod escaped;
mod facts;
mod part;
pub mod report;
mod run;
mod style;
mod tally;
