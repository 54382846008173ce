//! A debugger of charts in virtual time for editors, over the Debug Adapter Protocol. What a client asks for becomes lines of a prompt.
//!
//! - `desk`: where charts and scripts come from; `serving`: a client, from its first request to its last.
//! - `adapter`: requests, one by one; `asked`: what they ask for; `launched`: those to a chart that was launched.
//! - `laws`: what holds of a script that is played with breakpoints.
//! - `launch`, `form`: what a client says of a launch and of itself; `capabilities`: what it is told first.
//! - `opening`: a chart as a launch asks for it; `debuggee`: a chart that is debugged.
//! - `mark`, `marks`, `breakpoints`: breakpoints; `hit_condition`, `judging`, `messages`: what becomes of hits; `data_points`: values that are
//!   watched.
//! - `running`: a chart that goes on; `going_back`: one that goes back; `telling`: what is told of it.
//! - `stack`, `variables`, `evaluating`: what is shown.
#![tactic(auto)]

mod adapter;
mod asked;
mod breakpoints;
mod capabilities;
mod data_points;
mod debuggee;
pub mod desk;
mod evaluating;
mod form;
mod going_back;
mod hit_condition;
mod judging;
mod launch;
mod launched;
pub mod laws;
mod mark;
mod marks;
mod messages;
mod opening;
mod running;
pub mod serving;
mod stack;
mod telling;
mod variables;
