//! The extents of a job's resident copies in a tree, each with the classes of victims that its copy is in. Each node knows the
//! widest gaps between the extents that stay, so whether room can be made is known without a look at those that go.
#![tactic(auto)]

mod residents;
mod spans;

pub use residents::{Resident, Residents, SpareNode};
pub use spans::{Span, has_gap};
