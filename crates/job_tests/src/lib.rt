//! Tests of what one job has at a node: its window, the holes of that, and its order of use. A module for each: what no contract says, and
//! outside values.
#![tactic(auto)]

#[cfg(test)]
mod evictor;
#[cfg(test)]
mod holes;
#[cfg(test)]
mod windows;
