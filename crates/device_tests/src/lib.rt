//! Tests of the devices, of the directory and of the links: what no contract says, and outside values.
#![tactic(auto)]

#[cfg(test)]
mod devices;
#[cfg(test)]
mod directory;
#[cfg(test)]
mod folders;
#[cfg(test)]
mod links;
#[cfg(test)]
mod scripts;
