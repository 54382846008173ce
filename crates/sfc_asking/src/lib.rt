//! What an engineer asks at a prompt: words that show how a debugger stands, and change nothing. Their texts are our choice, and no clause
//! says what they are.
//!
//! - `show`: modes, tasks and programs; `release`: when a task is scanned next.
//! - `image`: what variables read.
//! - `points`: the breakpoints that are set; `trace`: the newest commands.
//! - `listing`: the text of the chart, or of one of its elements.
//! - `why`: why transitions aren't cleared; `operands`: what their conditions read.
//! - `explaining`: what a refusal or a fault means.
//! - `help`: what may be said.
//! - `note`: lines that tell of a fault.
#![tactic(auto)]

pub mod explaining;
pub mod help;
pub mod image;
pub mod listing;
pub mod note;
mod operands;
pub mod points;
pub mod release;
pub mod show;
pub mod trace;
pub mod why;

// What lies deeper, under a name of this crate.
use sfc_core::sfc_instances::sfc_instance;
use sfc_debug::sfc_core;
use sfc_output::{sfc_debug, sfc_list};
use sfc_script::sfc_load::sfc_check;
