//! The frames of a session: a reader that takes a stream in pieces and gives what its frames say, and the bytes
//! of the frames that are sent. Contracts say both by the grammar of frames, in which lengths and numbers have
//! their highest byte first.
#![tactic(auto)]

mod bodies;
mod encode;
mod frames;
mod kinds;
pub mod laws;
mod reader;
mod replies;

pub use encode::encode_command;
pub use reader::Reader;
pub use replies::encode_reply;
