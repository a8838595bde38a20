//! The places of the leaves of a tree.

/// The number of the first leaf's bucket, the number of levels over the leaves, and the number of their places,
/// 2^height.
#[derive(Clone, Copy, Drop)]
pub(crate) struct Standing {
    pub(crate) first: u64,
    pub(crate) height: usize,
    pub(crate) width: usize,
}
