//! The uses of a job's copies in a tree, the latest first, each with the classes of victims that its copy is in. The last use that
//! a walk chooses is found without a look at those between.
#![tactic(auto)]

mod classes;
mod uses;

pub use classes::{VictimClass, VictimClasses};
pub use uses::{SpareNode, Use, Uses};
