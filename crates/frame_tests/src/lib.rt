//! Tests of the frames of a session: streams in all cuts, faults, changed and random bytes, and allocations that fail.
#![tactic(auto)]

#[cfg(test)]
mod memory;
#[cfg(test)]
mod mutated;
#[cfg(test)]
mod reading;
