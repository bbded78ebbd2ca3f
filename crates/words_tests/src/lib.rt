//! Tests of words: ids, tasks, numbers and refusals, and lists. What no contract says, and outside values.
#![tactic(auto)]

#[cfg(test)]
mod ids;
