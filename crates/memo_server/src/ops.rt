//! The operations of a turn on a shard, the four calls, and their replies, with what a refused call hands back.
use crate::answers::{ShardKeep, ShardLook};
use crate::recipe::Recipe;
use std::alloc::AllocError;

/// An operation: the call of that name, with the turn's number as the caller.
#[derive(Drop)]
pub enum ShardOp<R: Recipe> {
    /// `Shard::look`.
    Look { run: u64, input: R::In },
    /// `Shard::keep`, for a result that fits the input.
    Keep { run: u64, input: R::In, out: R::Out },
    /// `Shard::release`, of an id on which the caller has a pin.
    Release { id: u64 },
    /// `Shard::sweep`.
    Sweep { horizon: u64 },
}

/// The reply of a turn on a shard: the answer of the call.
// With this order of variants the kit proves, in the crates above, that a list of passes can be dropped.
#[derive(Drop)]
pub enum ShardReply<R: Recipe> {
    Keep(Result<ShardKeep<R>, (AllocError, R::In, R::Out)>),
    Look(Result<ShardLook<R>, AllocError>),
    Release,
    Sweep(Result<u64, AllocError>),
}
