//! The interface between an engine and its trees of merged sheets, and the merge of two sheets through a memo.
//!
//! Start at [`Tree`]; a tree makes each of its nodes by [`merge_through`], which returns a [`Hold`], and gives holds up
//! by [`let_go`], [`let_some_go`] and [`let_all_go`]. A merge costs one look, and if that does not hit, one merge and
//! one keep. Sheets are shared and never copied. How leaves are stored is up to each tree.
#![tactic(auto)]

mod hold;
mod letting_go;
mod merging;
mod pair;
mod recipe;
mod tree;

pub use hold::Hold;
pub use letting_go::{let_all_go, let_go, let_some_go};
pub use merging::merge_through;
pub use pair::Pair;
pub use recipe::MergeRecipe;
pub use tree::Tree;
