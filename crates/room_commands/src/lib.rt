//! What Create, Get and a Pull do to a job's row at a node: what makes room in the job's window, or brings an object into it. Each is a function
//! over the row, and knows no other job's.
//!
//! What may send messages is given `room`: what came of its caller's growth, before the step, to keep them. If that was refused, a step
//! that sends something is out of memory as well, after its own checks; any other takes no notice.
#![tactic(auto)]

mod begin_pull;
mod create_command;
mod get_away;
mod get_command;
mod get_fetching;
mod pulls;
mod restore;
mod room;

pub use create_command::create;
pub use get_command::get;
pub use pulls::{pull_matches, serve_pull};
