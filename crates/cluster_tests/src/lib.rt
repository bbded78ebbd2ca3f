//! Tests of worlds of nodes, step by step, and of two worlds beside each other. Whole schedules are files, and `schedules` runs
//! them.
//!
//! A world is owned by a function that does nothing else: what owns less is proved in less time.
#![tactic(auto)]

#[cfg(test)]
mod lines;
#[cfg(test)]
mod steps;
