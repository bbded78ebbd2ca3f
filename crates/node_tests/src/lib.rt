//! Tests of one node: live jobs, device works, grants; a node's calls that are no events, what it foresees of an event, what it
//! reads back from files, and its journal. Whole schedules are files, and `schedules` runs them.
//!
//! A node is owned by a function that does nothing else: what owns less is proved in less time.
#![tactic(auto)]

#[cfg(test)]
mod admission;
#[cfg(test)]
mod calls;
#[cfg(test)]
mod foreseen;
#[cfg(test)]
mod journal;
#[cfg(test)]
mod lines;
#[cfg(test)]
mod restoring;
#[cfg(test)]
mod standing_grants;
#[cfg(test)]
mod works;
