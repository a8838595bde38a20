//! Tests of refusals that no other test brings about. They stand above the crates whose calls they make, so that no
//! crate below is proved again for them.
#![tactic(auto)]

#[cfg(test)]
mod large_tests;
#[cfg(test)]
mod memo_tests;
