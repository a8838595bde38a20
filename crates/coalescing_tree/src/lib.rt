//! The tree of a window that only grows: one merge over all leaves.
//!
//! [`CoalescingTree`] is a `Tree` of `tree_laws`. An advance merges the fresh leaves from left to right, and then the
//! root, if there is one, with their merge: at most one merge for each fresh leaf. Only the root's own merge stays
//! pinned. The leaves' sheets are shared. No leaf ever leaves, so the tree grows with its window.
#![tactic(auto)]

mod draft;
mod growing;
mod root;
mod sharing;
mod tree;

pub use tree::CoalescingTree;
