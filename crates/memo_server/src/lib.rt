//! One shard of the memo on one thread: entries by digest, with pins, and the history of the calls.
//!
//! Start at [`Recipe`], which says what is kept and how it is compared, then [`Shard`]. A look is one search by digest
//! and one comparison of inputs, a keep one insertion, a release a binary search by id, a sweep one walk. No call
//! blocks, an input is never found by its digest alone, and a pinned entry is never dropped.
#![tactic(auto)]

mod answers;
mod live;
mod live_entries;
mod log;
mod met;
mod ops;
mod plays;
mod recipe;
mod shard;
mod shared_entry;
mod turn;

pub use answers::{ShardKeep, ShardLook};
pub use ops::{ShardOp, ShardReply};
pub use recipe::Recipe;
pub use shard::Shard;
pub use shared_entry::SharedEntry;
pub use turn::Turn;

#[cfg(test)]
mod tests;
