//! A task of a board that has a row of tasks of one kind and one task of another.

/// One task.
#[derive(Drop)]
pub(crate) enum Task<A, M, B> {
    /// A task of the row, with the meter on which it counts.
    Work(A, M),
    /// The last task.
    Sweep(B),
}
