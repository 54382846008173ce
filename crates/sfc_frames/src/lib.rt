//! Frames of messages, as the Language Server Protocol and the Debug Adapter Protocol have them: lines of a head, an empty
//! line, and as many bytes as the field Content-Length says.
//!
//! - `cut`: what the front of a stream is; `line`: the lines of a head, and what they say.
//! - `frame_fault`: why no message is read, or none is written.
//! - `incoming`: the messages of a reader.
//! - `laws`: what holds of the definitions themselves.
//! - `outbox`: messages for a client, in order; `outgoing`: a message written as a frame.
//! - `serving`: a client, from its first message to its last.
#![tactic(auto)]

pub mod cut;
pub mod frame_fault;
pub mod incoming;
pub mod laws;
mod line;
pub mod outbox;
pub mod outgoing;
pub mod serving;
