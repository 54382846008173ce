//! Long responses of the Language Server Protocol, written token by token, so that no value of what is told stands in memory.
//!
//! - `position`: places and ranges of a document; `symbol`: what a document declares.
//! - `body`: what is told; `writing`: its tokens.
//! - `responding`: the response.
#![tactic(auto)]

pub mod body;
pub mod position;
pub mod responding;
pub mod symbol;
mod writing;
