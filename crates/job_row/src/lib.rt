//! The row of one job at a node: its window, its copies, and what may happen to each of them. A row knows no other job.
#![tactic(auto)]

mod checks;
mod copies;
mod footprint;
mod lent;
mod placement;
mod prepared;
mod row;
mod row_bytes;
mod row_steps;
mod standing;
mod syncing;

pub use copies::{ChunkFit, Copies};
pub use lent::Lent;
pub use placement::Placement;
pub use prepared::Prepared;
pub use row::JobRow;
pub use standing::{AfterChange, Held, Settled};
