//! The history of a cluster whose nodes many threads step: one trace of all that happens at its places, which exists in the proofs alone.
//!
//! A place, a node or the directory, adds each of its steps while its own lock is held. Whatever the other places add meanwhile, each
//! job's replies in the history are those of its private cluster, and the shared answers are those that are due.
#![tactic(auto)]

mod book;
pub mod laws;
mod names;
mod place;
mod sight;

pub use book::Law;
pub use names::{ClusterShape, HistoryName};
pub use place::{Opened, Place, Places};
pub use sight::Sight;
