//! What a hand knows. These types are only for proofs: no value of them is ever made.
use std::collections::LinkedList;

/// What a hand is doing.
pub enum Doing {
    /// The hand was joined into another.
    Spent,
    /// It may claim a task.
    Free,
    /// It has the task of this number.
    HasTask(u64),
    /// Its last claim found this number, and no task left.
    Ended(u64),
}

/// What one seat at the board's table knows.
pub struct View<T> {
    /// How many hands it represents.
    pub parts: u64,
    /// The tasks as they were handed in.
    pub tasks: LinkedList<T>,
    pub doing: Doing,
    /// The tasks that it gave back, done, with their numbers.
    pub given: LinkedList<(u64, T)>,
}
