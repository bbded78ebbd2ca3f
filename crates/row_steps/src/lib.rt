//! What a step of a job's row gives, and what is shown of the row beside what crosses jobs. The commands themselves are in the crates above.
#![tactic(auto)]

mod outcome;

pub use outcome::{Erase, RowOutcome};
