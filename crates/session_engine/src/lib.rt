//! One session over any reader and writer. A contract sees what was read and written as bytes, as far as
//! the reader and the writer tell them, and the gate that the session calls by a relation of its own.
#![tactic(auto)]

mod ending;
mod faulty;
mod gate;
mod sending;
mod serving;
mod session;

pub use ending::{Ended, SessionFault};
pub use faulty::FaultyStream;
pub use gate::Gate;
pub use serving::serve;
