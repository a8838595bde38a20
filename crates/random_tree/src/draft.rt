//! A draft is kept apart from the groups of a level, so that it can be dropped without a trace.
use crate::group::Group;
use job_laws::Job;

/// What a level becomes when a draft is settled: from the group at `first` on, `gone` groups are replaced by the fresh
/// ones.
#[derive(Drop)]
pub(crate) struct Draft<J: Job> {
    pub(crate) first: usize,
    pub(crate) gone: usize,
    pub(crate) fresh: Vec<Group<J>>,
}
