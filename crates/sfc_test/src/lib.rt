//! Tests of charts: which cases of files are run, and what is told of each.
//!
//! - `suite`: a chart and its tests, from bytes to bytes.
//! - `asked`: what is wanted of them; `titled`: the cases of a file with their titles; `opened`: a file over a chart.
//! - `running`: a case that is run; `results`: what came of cases so far.
//! - `told`: results as text; `junit`: results for tools that read the XML of JUnit; `part`: what stands between parts.
//! - `telling`: what is told of a case that fails; `operands`, `changes`: what it reads, and what came before.
//! - `desk`: where the commands of cases go.
//! - `input`: files, read to their end.
//! - `laws`: what holds of the definitions.
#![tactic(auto)]

pub mod asked;
mod changes;
pub mod desk;
pub mod input;
mod junit;
pub mod laws;
mod opened;
mod operands;
mod part;
mod results;
mod running;
pub mod suite;
mod telling;
mod titled;
mod told;

// What lies deeper, under a name of this crate.
use sfc_cases::sfc_script;
use sfc_core::sfc_instances::sfc_instance;
use sfc_debug::sfc_core;
use sfc_replay::sfc_output;
use sfc_script::sfc_debug;
