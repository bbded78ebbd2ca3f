//! A node with its journal: every step makes an entry, which a receipt names. Whenever a journaled node can be seen, the
//! replay of each job's lines on their base gives the job's store at the node, without contents, and the answers.
#![tactic(auto)]

mod beside;
mod entered;
mod entries;
mod folding;
mod gate;
mod kept;
pub mod laws;
mod logs;
mod looking;
mod not_stepped;
mod posts;
mod recorded;
mod recorded_directory;
mod recorded_posts;
mod seats;
mod stepped;
mod sweeping;

pub use entered::Entered;
pub use entries::{Agreement, Entry, Line, Receipt};
pub use folding::MOST_LINES;
pub use kept::Kept;
pub use not_stepped::NotStepped;
pub use posts::{Made, Mail, Posted};
pub use recorded::{Recorded, RecordedReceipt};
pub use recorded_directory::RecordedDirectory;
pub use recorded_posts::{RecordedMail, RecordedPosted};
pub use seats::{Seat, Seats, Unnamed};
