//! The private store of one job without its contents, as a value of a running program: what stands where, and no byte of
//! it. A contract sees the store that the definitions of `private_store` step and replay.
#![tactic(auto)]

mod arriving;
mod commands;
mod copies;
mod create;
mod device;
mod ending;
mod events;
mod fetching;
mod first_fit;
mod getting;
mod granted;
mod granting;
mod holds;
mod job_grants;
mod keeping;
mod leaving;
mod listing;
mod marks;
mod order;
mod planning;
mod predicates;
mod response;
mod restore;
mod room;
mod step;
mod store;
mod tables;
mod used;
mod window;

pub use copies::{FetchPhase, PlainCopy, PlainFetch, PlainWork};
pub use job_grants::{GivenGrant, SeenObject, TakenGrant};
pub use store::{Life, PlainStore};
pub use tables::copies_by_id;
