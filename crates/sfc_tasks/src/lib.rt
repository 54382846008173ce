//! The tasks of a resource (IEC 61131-3:2003, 2.7.2): which of them wait for a scan, and since when, which goes first,
//! when the next release comes, and how often each was late.
//!
//! - `laws`: what the definitions mean.
//! - `multiples`: multiples of an interval, in running form.
//! - `task_slot`: what is kept for a task.
//! - `ranking`: the order among tasks that wait.
//! - `table`: the tasks of a resource.
#![tactic(auto)]

pub mod laws;
mod multiples;
mod ranking;
pub mod table;
mod task_slot;
