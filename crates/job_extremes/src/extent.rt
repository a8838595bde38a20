//! The value of the job.

/// The least and the greatest of the numbers of a key.
#[derive(Clone, Copy, Debug, PartialEq, Eq)]
pub struct Extent {
    pub least: u32,
    pub greatest: u32,
}
