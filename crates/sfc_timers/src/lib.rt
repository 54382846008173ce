//! The blocks that action control is made of (IEC 61131-3:2003, 2.5.2.3 and 2.6.4.5): a flip-flop, an on-delay and an
//! edge. Each keeps a few fixed fields and answers what a look-back over all its calls so far says.
#![tactic(auto)]

/// how an input changed from one call to the next
mod edge;
/// set until reset, and reset wins
mod flip_flop;
/// the look-backs by the numbers of scans
pub mod laws;
/// true for as long as a time
mod on_delay;

pub use edge::{Change, Edge};
pub use flip_flop::FlipFlop;
pub use on_delay::OnDelay;
