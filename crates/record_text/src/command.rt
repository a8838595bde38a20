//! The commands of a script, with the records that they bring.
use crate::{Name, Records};

/// One command of a script. Its numbers are those of its line, its records those of its record lines.
#[derive(Drop)]
pub enum Command {
    /// Adds a bucket at the end.
    Bucket(Records),
    /// Removes this many of the oldest buckets.
    Drop(u32),
    /// Adds records at the end of the bucket at a place, counted from 0 at the oldest.
    Late { place: u32, more: Records },
    /// Names the file that later edits and loads act on.
    File { name: Name },
    /// Removes a file.
    Remove { name: Name },
    /// Replaces `del` records from place `at` on, counted from 0, by `ins`.
    Edit { at: u32, del: u32, ins: Records },
    /// Replaces all records of the file by these.
    Load(Records),
    /// Asks for the answer over the window.
    Run,
}
