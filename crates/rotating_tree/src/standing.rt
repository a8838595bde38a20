//! A window moves round its circle, while the tree's places stay.

/// The places of a window's leaves: the number of the first leaf's bucket, its place in the circle, and how many leaves
/// there are.
#[derive(Clone, Copy, Drop)]
pub(crate) struct Standing {
    pub(crate) first: u64,
    pub(crate) start: usize,
    pub(crate) count: usize,
}
