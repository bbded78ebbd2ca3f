//! Tests of threads at nodes behind locks: what a device's call and a step hold up, and what they don't.
#![tactic(auto)]

#[cfg(test)]
mod actors;
#[cfg(test)]
mod direct;
#[cfg(test)]
mod fetches;
#[cfg(test)]
mod gates;
#[cfg(test)]
mod kept_calls;
#[cfg(test)]
mod kept_devices;
#[cfg(test)]
mod kept_steps;
#[cfg(test)]
mod named;
#[cfg(test)]
mod objects;
#[cfg(test)]
mod sessions;
#[cfg(test)]
mod trials;
