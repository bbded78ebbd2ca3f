//! Lemmas on ids, lists, rows and stores that the proofs of several crates cite. All of it is in `proofs/`.
#![tactic(auto)]
