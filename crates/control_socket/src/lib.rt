//! The control socket of nodes that serve: its connections, the thread that takes standard input beside them, and when the server closes.
#![tactic(auto)]

mod connecting;
mod control;

pub use connecting::{Connecting, connect_control, take_input};
pub use control::{Control, Course};
