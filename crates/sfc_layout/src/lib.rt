//! The layout of charts in their graphic form (IEC 61131-3:2003, 2.6.2 to 2.6.5; IEC 60848), over numbers alone.
#![tactic(auto)]

mod board;
mod breadth;
pub mod chart;
mod columns;
mod components;
mod dominators;
mod draw_error;
pub mod drawing;
mod event;
mod extent;
mod extents;
mod finish;
mod gathering;
mod graph;
pub mod layout;
pub mod layout_error;
mod nesting;
pub mod node_box;
mod node_room;
mod outlets;
mod plan;
mod rows;
mod search;
mod sheets;
mod sizes;
mod skyline;
mod strands;
mod sweep;
mod table;
mod writer;
