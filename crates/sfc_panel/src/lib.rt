//! What of a loaded chart is shown where it changes: lines of programs that stand otherwise than before, and what variables read then.
//!
//! - `alike`: whether a program stands as another one.
//! - `panel`: what is shown, and the lines of what has changed.
//! - `picture`: programs as they stood.
//! - `watched`: which variables are shown.
#![tactic(auto)]

mod alike;
pub mod panel;
pub mod picture;
pub mod watched;

// What lies deeper, under a name of this crate.
use sfc_core::sfc_instances::sfc_instance;
use sfc_debug::sfc_core;
use sfc_output::sfc_debug;
