//! The tree of a document's chunks: an edit costs the merges over what it changed, wherever that is.
//!
//! [`RandomTree`] is a `Tree` of `tree_laws`. On each level, members are taken into groups that end at a member whose
//! digest begins with a byte of 128 or more, or at the eighth; so groups away from an edit stay, and are not looked up.
//! An advance over m leaves makes at most m - 1 merges, and unless a clash or a worn lock was met, only those whose
//! pair no merge of the tree had. Each merge stays pinned while the tree has it. Only the lengths of groups depend on
//! the values of digests.
#![tactic(auto)]

mod boundary;
mod draft;
mod drafting;
mod filling;
mod group;
mod growing;
mod level;
mod raising;
mod regrouping;
mod reverting;
mod root;
mod settling;
mod sharing;
mod splicing;
mod tree;

pub use tree::RandomTree;
