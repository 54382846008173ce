//! The Language Server Protocol, for charts, scripts and tests.
//!
//! - `serving`: a client from its first message to its last; `server`: what it is answered; `shelf`: files that no client has open.
//! - `documents`: what a client has open; `language`: what it is written in; `changing`: how it changes; `companion`: the chart of a
//!   script; `uris`: names of documents.
//! - `positions`: lines and columns; `params`: parameters of messages; `values`: values of messages; `answer`: what a request is
//!   answered; `putting`: what is put behind what a client is told.
//! - `client`, `capabilities`: what a client and the server can; `method`, `asked`: what is asked for of a document.
//! - `publishing`, `hovers`, `naming`, `symbols`, `completions`, `actions`, `edits`, `foldings`: the answers;
//!   `testing`: the faults of files of tests.
#![tactic(auto)]

mod actions;
mod answer;
mod asked;
mod capabilities;
pub mod changing;
mod client;
mod companion;
mod completions;
pub mod documents;
mod edits;
mod foldings;
mod hovers;
pub mod language;
mod method;
mod naming;
mod params;
pub mod positions;
mod publishing;
mod putting;
pub mod server;
pub mod serving;
pub mod shelf;
mod symbols;
mod testing;
mod uris;
mod values;

// What the crates above name through this one.
pub use sfc_wire::sfc_frames;
