//! Charts in their graphic form (IEC 61131-3:2003, 2.6.2 to 2.6.5; IEC 60848), as SVG.
#![tactic(auto)]

mod body;
mod draw_body;
mod draw_chart;
mod draw_link;
mod draw_step;
mod draw_transition;
pub mod drawing;
pub mod drawing_error;
pub mod drawn;
mod element;
mod graph;
mod link;
mod listed;
pub mod marks;
mod owned;
pub mod part;
pub mod picture;
mod row;
mod shape;
mod spots;
mod step;
mod style;
mod transition;
mod widths;
mod wrap;
