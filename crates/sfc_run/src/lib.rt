//! A chart in real time: a thread for each task, the clock and the gate of these workers, a session that obeys lines as they come, the
//! lines of the feed, and the audit at the end.
//!
//! - `alarms`: faults, hits, overruns and lost rows, which are told as they happen, over a debugger that follows the run (`follower`) and
//!   by what was told of overruns (`overruns`) and of lost rows (`losses`).
//! - `asks`: lines of a session that ask how all stands; `answering`: what they are answered.
//! - `audit`: the close of a controller, and its line.
//! - `console`: a seat whose commands a session says, with the receipts of those that were accepted.
//! - `draining`: the end of the feed.
//! - `keeper`: the epochs of a run itself, which keep its history short.
//! - `laws`: what holds of what was recorded.
//! - `pace`: the gate of a worker that scans as long as it may.
//! - `points`: the commands whose breakpoints are set.
//! - `printing`: the lines of the feed; `watch`: what is read of it; `teller`: where alarms go.
//! - `screen`: what is shown where it changes; `picked`: what that is, by names.
//! - `real_time`: the clock of a run.
//! - `recording`: its accepted commands as a script.
//! - `resumption`: where the debugger that follows goes on behind lost rows.
//! - `run`: a chart from its bytes to the audit; `run_opening`: what it is opened with; `run_threads`: its threads.
//! - `run_faults`: what went wrong in a run, with its exit status.
//! - `session`: lines that are obeyed as they come; `streams`: where a run reads and writes.
//! - `timing`: how late scans were; `stopwatch`: how long they took.
//! - `worker_ends`: why workers ended.
#![tactic(auto)]

pub mod alarms;
mod answering;
pub mod asks;
pub mod audit;
pub mod console;
pub mod draining;
pub mod follower;
mod keeper;
pub mod laws;
pub mod losses;
pub mod overruns;
pub mod pace;
pub mod picked;
pub mod points;
pub mod printing;
pub mod real_time;
pub mod recording;
pub mod resumption;
pub mod run;
pub mod run_faults;
mod run_opening;
mod run_threads;
pub mod screen;
pub mod session;
pub mod stopwatch;
pub mod streams;
pub mod teller;
pub mod timing;
pub mod watch;
mod worker_ends;

// What the crates above name through this one.
pub use sfc_control;
use sfc_control::sfc_debug;
use sfc_debug::sfc_core;
use sfc_replay::{sfc_output, sfc_script};
