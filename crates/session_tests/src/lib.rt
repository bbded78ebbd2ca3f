//! Tests of sessions: streams that were written by hand, cut and ended at every byte, each read and each write failing in turn,
//! many reads, and long pieces.
#![tactic(auto)]

#[cfg(test)]
mod desk;
#[cfg(test)]
mod handing_over;
#[cfg(test)]
mod reads;
#[cfg(test)]
mod sessions;
