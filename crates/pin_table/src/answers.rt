//! The answers of a memo to a look and to a keep, with the pin that it gave; and why a call failed.
use crate::pin::Pin;
use memo_server::{Recipe, SharedEntry};

/// Why a call of a memo failed.
#[derive(Drop)]
pub enum MemoFault {
    /// The lock of the shard is worn: its next ticket was 2^62 or more, namely `ticket`.
    Worn { ticket: u64 },
    /// Out of memory.
    Mem,
}

/// What a look found.
#[derive(Drop)]
pub enum Looked<R: Recipe> {
    /// A new pin on the entry of this input.
    Hit(Pin<R>),
    /// No live entry has the input's digest.
    Absent,
    /// The entry that has the digest, but another input.
    Clash(SharedEntry<R>),
}

/// What a keep did.
#[derive(Drop)]
pub enum Kept<R: Recipe> {
    /// A pin on the new entry.
    Stored(Pin<R>),
    /// A new pin on the entry that has this input already.
    Found(Pin<R>),
    /// The entry that has the digest, but another input; and the input and the result that were handed in.
    Clash(SharedEntry<R>, R::In, R::Out),
}

/// Why a keep failed, with the input and the result that were handed in.
#[derive(Drop)]
pub struct KeepRefused<R: Recipe> {
    pub fault: MemoFault,
    pub input: R::In,
    pub out: R::Out,
}
