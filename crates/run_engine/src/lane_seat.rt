//! The data of a lane's task.
use job_laws::Job;
use map_tasks::{Lane, LeafInput};

/// A lane with the leaves to bring, the leaves that leave, and whether memory ran out.
#[derive(Drop)]
pub(crate) struct LaneSeat<J: Job> {
    pub lane: Lane<J>,
    pub fresh: Vec<LeafInput>,
    pub gone: Vec<LeafInput>,
    pub failed: bool,
}
