//! What may happen to a resource, what it answers, and why it, or a chart, is refused (IEC 61131-3:2003, 2.4, 2.6 and 2.7.2).
//!
//! - `event`: events, and what an accepted one answers.
//! - `command`: what the debugger is asked, and what it answers.
//! - `instance_set`: sets of program instances.
//! - `refusal`: why an event or a command is refused; `read_error`, `load_error`: why a text is, by the reader and by the
//!   loader.
#![tactic(auto)]

pub mod command;
pub mod event;
pub mod instance_set;
pub mod load_error;
pub mod read_error;
pub mod refusal;
