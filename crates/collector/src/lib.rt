//! The caller of a memo that drops what nobody holds.
//!
//! Start with [`Collector::sweep_shard`]: it makes one sweep of a shard, at the horizon of the run. A sweep takes one
//! turn, which walks over the shard's entries once. The collector holds no pins. It changes only the shard that it
//! sweeps, and what its caller knows. How much a sweep finds is not promised.
#![tactic(auto)]

mod collecting;

pub use collecting::Collector;

#[cfg(test)]
mod tests;
