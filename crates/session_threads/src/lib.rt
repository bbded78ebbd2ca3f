//! Sessions at nodes that many threads step: the session that a stream has at its node, and listeners that serve each stream in a thread of
//! its own.
#![tactic(auto)]

mod frames;
mod listening;
mod session;

pub use listening::{Listening, listen};
pub use session::Session;
