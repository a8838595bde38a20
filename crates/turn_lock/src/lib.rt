//! A ticket lock, after Mellor-Crummey and Scott (1991), over a state that keeps its history.
//!
//! Start with [`Turns`], the state behind the lock, and [`TurnLock::turn`]. A [`Pass`] is the right to take turns; its
//! view is what its holder knows: the history up to its last turn, and its own entries in it. A turn costs five atomic
//! steps if nobody waits. Only `new` and `starting_at` take memory. Fairness is not promised, nor that a turn ever
//! comes.
#![tactic(auto)]

mod dealing;
mod knowledge;
mod locked;
mod plays;
mod rule;
mod state;
mod tokens;

pub use knowledge::Known;
pub use state::Turns;
pub use tokens::{Pass, TurnLock, Turned};

#[cfg(test)]
mod tests;
