//! Tests of what no contract of a lock can tell: which entries the receipts of calls name, what a worker does with a device that
//! fails, what the directory is sent, and what a session's stream is answered at a node.
#![tactic(auto)]

#[cfg(test)]
mod actors;
#[cfg(test)]
mod calls;
#[cfg(test)]
mod frames;
#[cfg(test)]
mod gathering;
#[cfg(test)]
mod named;
#[cfg(test)]
mod trials;
#[cfg(test)]
mod works;
