//! The settings of a program, and whether they are within their limits.
ghost use Rattle.std.specs.Prelude.{◌≡◌, ◌↔◌, IsTrue, false};
ghost use Rattle.run_settings.specs.Settings.{AreWithin};

use definitions::{MOST_PARTS, MOST_PLACES};

/// The most tasks that may be done at the same time.
pub const MOST_WORKERS: u32 = 16;

/// The most shards of a memo.
pub const MOST_SHARDS: u32 = 8;

/// The most runs for which a memo keeps what nothing uses.
pub const MOST_KEEP: u32 = 1_000;

/// How a script is processed. Of these numbers only `places` changes the answers.
#[derive(Clone, Copy, Debug, PartialEq, Eq)]
pub struct Settings {
    /// Into how many parts keys are divided, from 1 to [`MOST_PARTS`].
    pub parts: u32,
    /// How many tasks may be done at the same time, from 1 to [`MOST_WORKERS`].
    pub workers: u32,
    /// How many shards a memo has, from 1 to [`MOST_SHARDS`].
    pub shards: u32,
    /// For how many runs a memo keeps what nothing uses, up to [`MOST_KEEP`].
    pub keep: u32,
    /// How many buckets a circle has, from 1 to [`MOST_PLACES`].
    pub places: u32,
    /// Whether the work of each run is reported.
    pub work: bool,
    /// Whether a run prepares the next one. Not used yet.
    pub split: bool,
    /// Whether tasks are stolen rather than claimed. Not used yet.
    pub steal: bool,
}

impl Settings {
    /// Whether all numbers are within their limits.
    pub fn are_within(&self) -> bool
        ensures { IsTrue result ↔ AreWithin self.now }
    {
        self.parts >= 1
            && self.parts <= MOST_PARTS
            && self.workers >= 1
            && self.workers <= MOST_WORKERS
            && self.shards >= 1
            && self.shards <= MOST_SHARDS
            && self.keep <= MOST_KEEP
            && self.places >= 1
            && self.places <= MOST_PLACES
    }
}

impl Default for Settings {
    /// One part, one worker, one shard, one run for which the memo keeps what nothing uses, and 24 places.
    fn default() -> Settings
        ensures { result ≡ record { parts = 1; workers = 1; shards = 1; keep = 1; places = 24; work = false; split = false; steal = false } }
    {
        Settings {
            parts: 1,
            workers: 1,
            shards: 1,
            keep: 1,
            places: 24,
            work: false,
            split: false,
            steal: false,
        }
    }
}
