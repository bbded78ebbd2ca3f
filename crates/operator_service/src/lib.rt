//! An operator's lines, carried out at nodes that serve and answered over any reader and writer.
#![tactic(auto)]

mod attending;
mod counting;
mod looks;
mod serving;

pub use attending::{Closed, Closing, attend};
pub use serving::{LastLine, serve_text, write_report};
