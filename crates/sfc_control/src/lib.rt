//! A debugger that threads share: one history of all that was accepted, a receipt for each caller, and an audit at the end.
//!
//! - `accepted`, `history`, `seat_counts`: the entries that are held, and what is known of all.
//! - `bells`: what wakes the threads that share a book.
//! - `book`: a debugger with its history and its feed.
//! - `call_error`: why a call is refused.
//! - `clock`: where the instants of calls come from.
//! - `close`: the audit at the end.
//! - `controller`: a book under a lock.
//! - `crews`: workers in threads of their own.
//! - `entry`, `receipt`: what is entered, and what a caller keeps of it.
//! - `feed`, `tail`: where accepted commands are published, and the end that takes rows.
//! - `gate`: what lets a worker go on.
//! - `given`: the accepted calls of a seat, which proofs alone read.
//! - `laws`: what holds of a book and its tail in one hand, of what an epoch drops, and of how long a worker may wait.
//! - `locked`: what lies under the lock.
//! - `post`: where a worker sits.
//! - `seat`: a place at a controller.
//! - `opened_with`: what a controller is opened with.
//! - `telling`: a debugger that is told a command, where an epoch is kept.
//! - `work`: a worker, which scans one task.
#![tactic(auto)]

mod accepted;
pub mod bells;
pub mod book;
pub mod call_error;
pub mod clock;
pub mod close;
pub mod controller;
pub mod crews;
pub mod entry;
mod feed;
pub mod gate;
mod given;
mod history;
pub mod laws;
pub mod locked;
pub mod opened_with;
pub mod post;
pub mod receipt;
pub mod seat;
mod seat_counts;
pub mod tail;
mod telling;
pub mod work;

// What the crates above name through this one.
pub use sfc_debug;
use sfc_debug::sfc_core;
