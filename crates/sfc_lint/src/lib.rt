//! What a chart surely or probably does wrong (IEC 61131-3:2003, 2.4 to 2.7): warnings of a chart that loads.
//!
//! - `kind`: the kinds of warnings; `finding`: a warning, and the list of them; `view`: a program type that is looked at.
//! - `reading`: what was read of a text; `lint`: all its warnings, in text order; `budget`: how much is looked at; `pragmas`: the warnings
//!   that a text allows; `places`: where they stand.
//! - `networks`, `forks`: what the networks of a chart do (2.6.2, 2.6.5); `runs`: how a run is told.
//! - `associations`, `timed`: action blocks (2.6.4); `expressions`: conditions and bodies (3.3); `constant`: values that are always the same.
//! - `selections`: transitions of one step that may be TRUE together (2.6.5); `atoms`: what their conditions are made of.
//! - `usage`, `writers`: who reads and writes a variable (2.4); `names`, `near`: names that are easily taken for one another
//!   (2.1.2).
//! - `tasks`: when programs run at all (2.7.2).
#![tactic(auto)]

mod associations;
mod atoms;
pub mod budget;
mod constant;
mod expressions;
pub mod finding;
mod forks;
pub mod kind;
pub mod lint;
mod names;
mod near;
mod networks;
mod places;
mod pragmas;
pub mod reading;
mod runs;
mod selections;
mod tasks;
mod timed;
mod usage;
mod view;
mod writers;

// What the crates above name through this one.
pub use sfc_page;
pub use sfc_text;
