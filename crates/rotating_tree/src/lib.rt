//! The tree of a window that is a circle of places: a change at one place costs the merges over it, up to the root.
//!
//! [`RotatingTree`] is a `Tree` of `tree_laws` for jobs whose values may be joined in either order. Each leaf keeps its
//! place in a full tree, from when it comes until it leaves; an advance writes the fresh and the changed leaves into
//! the drafts of their places, and makes the nodes over these places again, each once. Settling and reverting walk only
//! the nodes that the draft replaced. The root merges in the order of the places, and equals the merge in the window's
//! order.
#![tactic(auto)]

mod circle;
mod draft;
mod joining;
mod making;
mod node;
mod part;
mod putting;
mod rejoining;
mod reverting;
mod settling;
mod standing;
mod tree;

pub use tree::RotatingTree;
