//! A draft is kept apart from what it replaces, so that it can be dropped without a trace.
use crate::part::Part;
use job_laws::Job;

/// What becomes of a node when a draft is settled.
#[derive(Drop)]
pub(crate) enum Draft<J: Job> {
    /// It stays, and so does everything below it.
    Same,
    /// A place below it changed, and its new part is not made yet.
    Due,
    /// It becomes this part.
    New(Part<J>),
}
