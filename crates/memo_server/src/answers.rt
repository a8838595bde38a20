//! The answers of a shard to a look and to a keep, with the entry that they are about.
use crate::recipe::Recipe;
use crate::shared_entry::SharedEntry;

/// What a look found.
#[derive(Drop)]
pub enum ShardLook<R: Recipe> {
    /// The entry of this input, on which the caller has one more pin.
    Hit(SharedEntry<R>),
    /// No live entry has the input's digest.
    Absent,
    /// The entry that has the digest, but another input.
    Clash(SharedEntry<R>),
}

/// What a keep did.
#[derive(Drop)]
pub enum ShardKeep<R: Recipe> {
    /// The new entry, on which the caller has a pin.
    Stored(SharedEntry<R>),
    /// The entry that has this input already, on which the caller has one more pin.
    Found(SharedEntry<R>),
    /// The entry that has the digest, but another input; and the input and the result that were handed in.
    Clash(SharedEntry<R>, R::In, R::Out),
}
