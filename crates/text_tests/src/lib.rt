//! Tests of texts. Of schedules: every command, every event and every reply, beside texts that were written by hand. Of a saved
//! journal: worked lines of each version, beside lines that aren't entries.
#![tactic(auto)]

#[cfg(test)]
mod journal;
#[cfg(test)]
mod printing;
#[cfg(test)]
mod reading;
