//! What is written of commands, of their answers, of program instances and of the image, as lines of text (our choice of
//! format). The names, times and marks are those of IEC 61131-3:2003.
//!
//! - `answer`: the lines of a command and of its answer, with those of the instances that were scanned.
//! - `breakpoint`: where breakpoints stand, and their conditions.
//! - `command`: the lines of commands and of their answers; of rows of the trace.
//! - `effects`: what a scan did, and how that is written.
//! - `fault_place`: where the fault of a program instance is, in words.
//! - `image_line`: the lines of the image.
//! - `kept_head`: the head of the lines of a program instance, put again and again.
//! - `kept_text`: short texts that are put again and again.
//! - `line`: what stands in the lines of scans and of program instances, piece by piece.
//! - `list`: lists in a line.
//! - `kept_lines`: what is kept of the lines of scans and of program instances.
//! - `naming`: names of variables of the image.
//! - `program`: the line of a program after a scan.
#![tactic(auto)]

pub mod answer;
mod breakpoint;
pub mod command;
mod effects;
pub mod fault_place;
pub mod image_line;
mod kept_head;
pub mod kept_lines;
mod kept_text;
mod line;
mod list;
pub mod naming;
pub mod program;

// What the crates above name through this one.
use sfc_core::sfc_instances;
pub use sfc_debug;
use sfc_debug::sfc_core;
use sfc_instance::{sfc_action, sfc_image, sfc_tables};
use sfc_instances::sfc_instance;
pub use sfc_list;
