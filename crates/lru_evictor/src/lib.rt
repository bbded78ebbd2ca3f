//! The order of use of one job's copies, and the plan for room in its window. A contract sees an order of
//! use as the job's ids, least recently used first; the plan is the rule of room over the job's copies,
//! which it looks up one at a time.
#![tactic(auto)]

mod candidates;
mod facts;
mod index;
mod job_order;
mod laws;
mod plans;
mod renumbering;
mod search;
mod spilling;
mod use_order;

pub use facts::{CopyFacts, CopyLookup, DeviceRoom, EvictionInfo, Plan};
pub use laws::orders_follow_the_steps;
pub use search::extents_by_offset;
pub use use_order::{Order, UseOrder};
pub use use_tree::VictimClasses;
