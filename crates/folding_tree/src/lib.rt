//! The tree of a window whose oldest buckets leave by command: a change costs the merges over its place.
//!
//! [`FoldingTree`] is a `Tree` of `tree_laws`. The leaves are a row among 2^height places, and each level over them has
//! only nodes with leaves. Leaves leave at the front and fresh ones come at the end; if one half of the places is void,
//! the tree folds, and if all places at the end are taken, it doubles. Each node over a changed place is made once.
//! Settling and reverting walk only the nodes that the draft replaced.
#![tactic(auto)]

mod beginning;
mod deepening;
mod draft;
mod joining;
mod letting;
mod level;
mod making;
mod parents;
mod part;
mod raising;
mod settling;
mod span;
mod standing;
mod tower;
mod tree;

pub use tree::FoldingTree;
