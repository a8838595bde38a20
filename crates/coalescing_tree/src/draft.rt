//! A draft keeps its merges apart from the tree's, so that it can be dropped without a trace.
use job_laws::Job;
use tree_laws::Hold;

/// The merges of a draft's fresh leaves.
#[derive(Drop)]
pub(crate) enum Draft<J: Job> {
    /// No leaf came.
    Same,
    /// The merges in the order in which they were made; the last one is over all leaves.
    Merged(Vec<Hold<J>>),
}
