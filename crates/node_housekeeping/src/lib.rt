//! What the steps of a node leave to be done beside the node itself: counts, sessions and streams that are open, keys that wait to be
//! erased, calls that wait, and what a worker asks of its device. Nothing here names a node; what many threads share has a lock of its
//! own, under which no other is taken.
#![tactic(auto)]

mod client;
mod counts;
mod device_calls;
mod given_keys;
mod housekeeping;
mod job_counts;
mod job_locks;
mod marked_sessions;
mod open_sessions;
mod open_stream;
mod open_streams;
mod pausing;
mod seals;
mod sent_counts;
mod tally;
mod turns;
mod upkeep;
mod waiting;
mod waiting_keys;
mod work_done;
mod worker_bell;

pub use client::is_gone;
pub use counts::{Counts, NodeCounts};
pub use device_calls::{Finishing, call_device, erase_all};
pub use given_keys::LeftToErase;
pub use housekeeping::Housekeeping;
pub use job_counts::{Count, CountName, JobCounts, JobEvent};
pub use job_locks::JobLocks;
pub use marked_sessions::{MOST_SESSIONS, Marked, MarkedSessions};
pub use open_sessions::{CountedSessions, OpenSessions};
pub use open_stream::{ListedSession, OpenStream};
pub use open_streams::OpenStreams;
pub use pausing::{NoPause, Pause};
pub use seals::Seals;
pub use sent_counts::{Sender, SentCounts};
pub use tally::{CountedLost, LookedFor, Tallies, Tally};
pub use turns::{LANES, Turn, Turns, lane_of};
pub use upkeep::Upkeep;
pub use waiting::{Versions, Waiting, WakeScope, wake_scope_of};
pub use waiting_keys::WaitingKeys;
pub use work_done::WorkDone;
pub use worker_bell::WorkerBell;
