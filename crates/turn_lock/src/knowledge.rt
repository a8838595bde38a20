//! What a pass knows. These types are only for proofs: no value of them is ever made.
use std::collections::LinkedList;

/// What the holder of one pass knows.
pub struct Known<E> {
    /// The number under which it plays.
    pub number: u64,
    /// The history up to its last turn.
    pub seen: LinkedList<E>,
    /// The entries of it that are under its number.
    pub mine: LinkedList<E>,
    /// The ticket that its last check found.
    pub read: u64,
}

/// The stage of a turn that a seat is in.
pub enum Stage<E> {
    /// The view was joined into another.
    Spent,
    /// Between two turns.
    Idle,
    /// The last check found a ticket below the limit.
    Marked,
    /// A ticket was drawn.
    Drawn(u64),
    /// The ticket's turn has come, and the history was this one.
    Serving(u64, LinkedList<E>),
}

/// What one seat at the lock's table knows.
pub struct View<E> {
    /// How many passes the lock was made with.
    pub callers: u64,
    pub own: Known<E>,
    pub stage: Stage<E>,
    /// How many numbers it still has to give out.
    pub gives: u64,
    /// What the passes that were joined into it knew.
    pub ended: LinkedList<Known<E>>,
}
