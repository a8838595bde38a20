//! The data of a part's task.
use job_laws::Job;
use pin_table::Caller;
use sheets::Sheet;
use tree_laws::{MergeRecipe, Tree};

/// The tree of a part with the caller whose pins it has, the sheets of the leaves that came, in the shift's order, and
/// whether memory ran out.
#[derive(Drop)]
pub(crate) struct PartSeat<J: Job, T: Tree<J>> {
    pub tree: T,
    pub caller: Caller<MergeRecipe<J>>,
    pub fresh: Vec<Sheet<J>>,
    pub failed: bool,
}
