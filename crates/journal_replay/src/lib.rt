//! The replay of a saved journal: its text is read to the end, each line's input is stepped on the store without contents
//! of its job at its node, and the line's answer is compared with the one that is due. A contract sees the lines that were
//! read, and of each job at each node the private store's replay.
#![tactic(auto)]

mod fault;
mod inputs;
mod jobs;
mod journal;
mod laws;
mod program;
mod replay;
mod replies;

pub use fault::ReplayFault;
pub use journal::replay_journal;
pub use laws::a_sound_journal_replays;
pub use program::{Verdict, replay_text, status_of};
pub use replay::{Difference, ReplayResult};
