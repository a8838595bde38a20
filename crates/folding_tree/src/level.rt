//! Levels hold only the nodes that are there, in a row, so that old ones leave at the front and fresh ones come at the
//! end.
use crate::part::Part;
use job_laws::Job;
use std::collections::VecDeque;

/// The nodes of one level, in order.
#[derive(Drop)]
pub(crate) struct Level<J: Job> {
    /// The place of the first node, among the places of this level.
    pub(crate) low: usize,
    pub(crate) nodes: VecDeque<Part<J>>,
}
