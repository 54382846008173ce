//! What is told of a fault beside its place: the element in words, what could stand there by the reader's own answers, and the
//! declared names that may be meant.
//!
//! - `surroundings`: which element a place lies in; `describe`: elements in words.
//! - `notes`: lines with what is told of a fault that loading finds.
//! - `mending`: what mends a typical fault of a text that can't be read, at a token that is `misplaced`: by `signs` and by words that
//!   are `foreign`, by the `forms` of elements, by `blocks`, and by `reserved` words that are near.
//! - `candidates`, `near`: declared names that may be meant.
//! - `short_front`, `trial`, `expected`: what could stand at a place.
//! - `hints`: what is told of a fault; `writing`: text that is put together.
#![tactic(auto)]

mod blocks;
pub mod candidates;
pub mod describe;
pub mod expected;
pub mod foreign;
mod forms;
pub mod hints;
pub mod mending;
pub mod misplaced;
pub mod near;
pub mod notes;
mod reserved;
pub mod short_front;
mod signs;
pub mod surroundings;
pub mod trial;
pub mod writing;

// What the crates above name through this one.
pub use sfc_places;
