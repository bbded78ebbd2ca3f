//! Tests of one copy: digests, pins and holds, fetches. A module for each: what no contract says, and outside values.
#![tactic(auto)]

#[cfg(test)]
mod digests;
#[cfg(test)]
mod fetches;
#[cfg(test)]
mod pins;
