//! The nodes of a process, with the threads that serve them: workers that carry out the device works of a node, and receivers of what nodes
//! send one another.
#![tactic(auto)]

mod cluster;
mod receiving;
mod working;

pub use cluster::Cluster;
pub use working::{Working, work};
