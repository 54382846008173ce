//! Why a chart or a script is refused, as a text: file, line and column of the token at fault, its element, what could stand
//! there or was meant, what the refusal means and what usually leads to it.
//!
//! - `chart`: why a chart is refused; `reading`: where it can't be read.
//! - `all`: all faults of a chart; `search`: those behind the first one, in a text that is `mended`, by `pieces` that are taken out or
//!   changed as `repair` says; `lost`: names that went with them.
//! - `script`: why a script is refused; `words`: the words of a line; `commands`: the words that begin commands; `condition`: faults of
//!   conditions; `naming`, `warning`: names in it that the chart hasn't; `over`: a plant with the text of its chart.
//! - `report`: what is told of a fault; `page`: a report as text.
//! - `place`: where in a text a fault is; `position`: lines and columns; `source_line`: a line with a mark.
#![tactic(auto)]

pub mod all;
pub mod chart;
mod commands;
pub mod condition;
mod lost;
mod mended;
pub mod naming;
pub mod over;
pub mod page;
mod pieces;
pub mod place;
pub mod position;
mod reading;
mod repair;
pub mod report;
pub mod script;
mod search;
mod source_line;
pub mod warning;
mod words;

// What the crates above name through this one.
use sfc_debug::sfc_core;
pub use sfc_explain;
pub use sfc_hints;
use sfc_hints::sfc_places;
pub use sfc_script;
use sfc_script::{sfc_debug, sfc_load};
