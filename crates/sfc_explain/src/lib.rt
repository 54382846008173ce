//! What each refusal and fault means: its number, its name, the usual cause and an example.
//!
//! - `explanation`: what is told of one of them.
//! - `finding`: explanations by number and by name.
//! - `page`: explanations as text.
//! - `table`: all explanations.
//! - `topic`: what is refused or fails, by number and name.
#![tactic(auto)]

pub mod explanation;
pub mod finding;
pub mod page;
pub mod table;
pub mod topic;
