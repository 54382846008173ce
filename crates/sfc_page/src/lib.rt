//! The writing of text, byte by byte: numbers, values of type TIME, and other values (IEC 61131-3:2003, 2.2); and a page, on which
//! text is put together.
//!
//! - `append`: pieces of text, put at the end of a buffer.
//! - `digits`: decimal digits, put where they have room.
//! - `line`: the end of a text, put together before it goes to a buffer.
//! - `page`: a text that is put together, piece by piece.
//! - `pieces`: bytes, put where they have room.
//! - `time_text`: numbers and values of type TIME, written to a device.
//! - `times`: values of type TIME, put where they have room.
#![tactic(auto)]

pub mod append;
pub mod digits;
pub mod line;
pub mod page;
pub mod pieces;
pub mod time_text;
pub mod times;
