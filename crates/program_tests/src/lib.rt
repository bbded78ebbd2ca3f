//! Tests of what no contract of a stream can tell: what a run says of a reader or a writer that fails.
#![tactic(auto)]

#[cfg(test)]
mod runs;
