//! Where the faults of charts are: the token that is at fault, the element that it stands in, and which names are declared.
//!
//! - `chart_text`: a text with its tokens; `tree_text`: with its tree too.
//! - `by_tree`: what loading has found, told by the tree; `enclosing`: in which element a place is.
//! - `declared`: declared names; `spaces`: those of a text.
//! - `finding`: what is found at fault.
//! - `marks`: tokens by their places; `regions`: where the configuration stands.
//! - `span`: where the tokens lie among the bytes.
#![tactic(auto)]

pub mod by_tree;
pub mod chart_text;
pub mod declared;
pub mod enclosing;
pub mod finding;
pub mod marks;
pub mod regions;
pub mod spaces;
pub mod span;
pub mod tree_text;

// What the crates above name through this one.
pub use sfc_variables::sfc_check;
