//! The ways between the nodes of a cluster: a link for each lane from each node to each other one, and the directory. What goes by them is
//! what a step sent, and nothing else.
#![tactic(auto)]

mod inbox;
mod lanes;
mod outbox;

pub use inbox::{Handing, Inbox, end_turn};
pub use outbox::{Delivery, Outbox};
