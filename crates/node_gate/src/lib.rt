//! What the threads that serve a node ask of it, and what each step promises them. Nothing here is a node: who has one with its journal
//! says by ghost members what a step of it is.
#![tactic(auto)]

mod actor;
mod journaled;
mod keeping;
mod leaving;
mod posted;

pub use actor::{Actor, ActorSource};
pub use journaled::{JournaledNode, LiveJob, Made};
pub use keeping::{Access, Keeper, SeatedNode, nothing_beside};
pub use leaving::{leave_entered, leave_of};
pub use posted::Posted;
