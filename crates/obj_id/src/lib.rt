//! The words that every layer of the store speaks: the ids of tasks, jobs and objects with their
//! bytes and texts, the refusals, and the commands, replies, messages and works. Payloads are bytes,
//! which a contract sees as a list of numbers.
#![tactic(auto)]

mod by_number;
mod commands;
mod ids;
mod items;
mod laws;
pub mod limits;
mod messages;
pub mod numbers;
mod refusals;
mod texts;
mod works;

pub use by_number::{ChunkIndex, FetchNo, NodeNo};
pub use commands::{Command, CopyState, GrantedItem, Kind, OwnItem, Reply, Usage};
pub use ids::{JobNo, ObjectId, TaskNo};
pub use items::ItemList;
pub use laws::{a_text_names_one, ids_are_ordered_as_their_bytes};
pub use messages::{Arrival, Digest, DirectoryMessage, Endpoint, Location, Message, PeerMessage};
pub use refusals::{Failure, Refusal};
pub use works::{DeviceAnswer, DeviceKey, Extent, JobKey, Quota, Work, WorkKind};
