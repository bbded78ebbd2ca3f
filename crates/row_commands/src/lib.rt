//! What the commands of a job's sessions that make no room, the messages that arrive for the job and the answers of devices do to its row at a
//! node. Each is a function over the row, and knows no other job's.
//!
//! What may send messages is given `room`: what came of its caller's growth, before the step, to keep them. If that was refused, a step
//! that sends something is out of memory as well, after its own checks; any other takes no notice.
#![tactic(auto)]

mod arrivals;
mod bytes_commands;
mod chunks;
mod device_works;
mod ending;
mod grant_commands;
mod hold_commands;
pub mod laws;
mod listing;
mod preparing;
mod quota_change;
mod scope_commands;
mod task_end;

pub use arrivals::{located, not_here};
pub use bytes_commands::{lend, read, seal, write};
pub use chunks::{ChunkTaken, chunk};
pub use device_works::{Answered, finish, work};
pub use ending::device_keys;
pub use grant_commands::{grant, grant_check, granted_length, lend_granted, withdraw};
pub use hold_commands::{leave, release};
pub use listing::{list, tell_usage, usage};
pub use preparing::{copy_part, extent_wanted, length_with_last, may_want, share_copy, wants};
pub use quota_change::{requota, requota_check};
pub use scope_commands::{borrow, delete, give_up, unpin};
pub use task_end::end_task;
