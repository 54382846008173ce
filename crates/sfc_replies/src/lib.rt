//! What requests of the Debug Adapter Protocol are answered: bodies of responses and events, row by row, and how they are put.
//!
//! - `arguments`: what a request says.
//! - `row`: an object of texts, numbers and flags; `rows`: a list of them; `body`: an object with such lists.
//! - `reply`: a response, and the events behind it; `serving`: a whole client.
#![tactic(auto)]

pub mod arguments;
pub mod body;
pub mod reply;
pub mod row;
pub mod rows;
pub mod serving;
