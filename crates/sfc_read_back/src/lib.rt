//! What holds of the text of a loaded plant: it is read back as the equal plant (IEC 61131-3:2003, Annex B).
//!
//! - `laws`: each law is a function with an empty body, whose contract is the law.
#![tactic(auto)]

pub mod laws;
