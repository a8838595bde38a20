//! The terms that the contracts of several crates share, and their laws: records and their text, bytes that are
//! observable or not, counts that increased, and the result of mapping, grouping and reducing records. Start at
//! `specs/Records.antt`, then `specs/Tables.antt`. The only code is the limits.
#![tactic(auto)]

/// The most bytes of a record.
pub const MOST_RECORD: usize = 65_535;

/// The most bytes of text in a window, and in the record lines of one command, each line with its LF.
pub const MOST_TEXT: usize = 268_435_456;

/// The most buckets of a window that has no places.
pub const MOST_BUCKETS: usize = 65_536;

/// The most files of a window.
pub const MOST_FILES: usize = 65_536;

/// One more than the most bytes of a script.
pub const MOST_SCRIPT: u64 = 4_294_967_296;

/// The most parts into which keys are divided.
pub const MOST_PARTS: u32 = 16;

/// The most places of a circle of buckets.
pub const MOST_PLACES: u32 = 4_096;

/// The most members of a group that the job topk keeps.
pub const MOST_MEMBERS: u32 = 1_000;
