//! Nodes that many threads step: each with its journal behind a lock, with its ways to the others and to the directory. A call of a node
//! makes its steps by `node_steps`, and hands over what they send once the lock is left.
#![tactic(auto)]

mod arriving;
mod calls;
mod erasing;
mod leaving;
mod looking;
mod node_list;
mod orders;
mod pending;
mod posting;
mod preparing;
mod receipt_buffer;
mod refusing;
mod report;
mod shared;
mod waits;
mod working;

pub use node_list::NodeList;
pub use pending::PendingFinish;
pub use receipt_buffer::ReceiptBuffer;
pub use refusing::out_of_memory;
pub use report::{Report, SessionsEnded, SessionsShut, Totals};
pub use shared::SharedNode;
