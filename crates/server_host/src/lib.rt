//! What a server asks of its host: the files of sockets, standard streams that may have been set not to wait, what the machine has, and
//! devices that tell which of their calls failed. Nothing here names a node.
#![tactic(auto)]

mod machine;
mod patient;
mod serve_fault;
mod sockets;
mod telling;

pub use machine::{machine_memory, most_descriptors};
pub use patient::Patient;
pub use serve_fault::{PrintedFault, ServeFault};
pub use sockets::{SocketFile, bind, bind_alone};
pub use telling::{KnowsReason, Telling, TellingDevice};
