//! What is known of a command by its kind: the one table that a new command must be put into.
#![tactic(auto)]

mod command_kind;
mod outline;
mod payloads;
mod preparation;

pub use command_kind::{COMMAND_KINDS, Carrier, CommandKind, KINDS, MostSent, Moved, Prepares};
pub use outline::{Outline, Subject};
pub use payloads::without_payload;
pub use preparation::Preparation;
