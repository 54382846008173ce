//! What editors show of charts and scripts: what stands at a byte, where it is declared and used, what is told of it, what may
//! stand there, which faults and warnings there are, and what mends them.
//!
//! - `chart`: a chart as far as it can be read; `reading`: its tokens by bytes.
//! - `meaning`: what stands at a byte; `uses`: where the same thing is named; `declarations`: what a chart declares; `folds`: blocks.
//! - `card`: what is told of something; `cards`, `steps`, `qualifiers`, `refusals`: of what is declared, of steps and actions, of
//!   qualifiers, of refusals.
//! - `wanted`, `names`, `completion`: what may stand at a place of a chart.
//! - `script`: words of scripts, and what may stand there; `testing`: the same of files of tests, and their faults.
//! - `diagnostic`, `diagnosing`: faults and warnings with their places; `faults`: all of a chart, or the first of a large one.
//! - `mending`: what mends a fault; `renaming`: another name for something; `indents`: the blanks before lines; `sameness`: whether
//!   two texts say the same.
//! - `paints`: what kind of word each token is.
#![tactic(auto)]

pub mod card;
pub mod cards;
pub mod chart;
pub mod completion;
pub mod declarations;
pub mod diagnosing;
pub mod diagnostic;
mod faults;
pub mod folds;
pub mod indents;
pub mod meaning;
pub mod mending;
mod names;
pub mod paints;
pub mod qualifiers;
pub mod reading;
pub mod refusals;
pub mod renaming;
mod sameness;
pub mod script;
mod steps;
pub mod testing;
pub mod uses;
mod wanted;

// What the crates above name through this one.
pub use sfc_outline;
pub use sfc_places;
pub use sfc_tokens;
