//! Where a text declares what, and where it names it: the outline of a text that has a tree.
//!
//! - `item`: what a text declares; `entry`: where it does; `mention`: where a name stands that means it.
//! - `outline`: the outline of a text, and what is asked of it.
//! - `space`, `spaces`: which names mean what; `draft`: an outline while it is made.
//! - `variables`, `elements`, `bodies`, `expressions`, `configuration`: the parts of a text, one after the other.
//! - `judging`: whether a place is what it is said to be; `naming`: what a plant has there.
#![tactic(auto)]

mod bodies;
mod configuration;
mod draft;
mod elements;
pub mod entry;
mod expressions;
pub mod item;
mod judging;
pub mod mention;
pub mod naming;
pub mod outline;
mod space;
mod spaces;
mod variables;
