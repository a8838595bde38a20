//! The set of jobs of a program.
ghost use Rattle.std.specs.Prelude.{◌≡◌, ◌≤◌, ℕ, List};
ghost use Rattle.definitions.specs.Limits.{most_members};
ghost use Rattle.job_laws.specs.Forms.{is_count_record, is_index_record, is_topk_record, is_latest_record};

use crate::{Job, Meter, Swaps};

/// The jobs of a program, with one type of meter. Nothing is known of what they emit, join and write beyond the laws of
/// [`crate::Job`] and [`Swaps`], so a program makes values only by their calls. The calls here take no memory. Jobs,
/// values and meters can go to other threads, which [`crate::Job`] alone does not require.
pub trait JobSet {
    type Meter: Meter + Send + Sync;

    type Count: Swaps<Meter = Self::Meter, Val: Send + Sync> + Send + Sync;

    type Index: Swaps<Meter = Self::Meter, Val: Send + Sync> + Send + Sync;

    type TopK: Swaps<Meter = Self::Meter, Val: Send + Sync> + Send + Sync;

    type Latest: Job<Meter = Self::Meter, Val: Send + Sync> + Send + Sync;

    /// The job `count`, of setting 0.
    fn count(&self) -> Self::Count
        ensures { Self.Count.setting result ≡ 0 };

    /// The job `index`, of setting 0.
    fn index(&self) -> Self::Index
        ensures { Self.Index.setting result ≡ 0 };

    /// The job `topk` that keeps `k` members, which is its setting.
    fn topk(&self, k: u32) -> Self::TopK
        requires least { 1 ≤ k }
        requires most { k ≤ most_members }
        ensures { Self.TopK.setting result ≡ k };

    /// The job `latest`, of setting 0.
    fn latest(&self) -> Self::Latest
        ensures { Self.Latest.setting result ≡ 0 };

    // Each accepts exactly the records of its form.
    ghost count_accepts: { (r : List ℕ) → Self.Count.accepts 0 r ≡ is_count_record r };

    ghost index_accepts: { (r : List ℕ) → Self.Index.accepts 0 r ≡ is_index_record r };

    ghost topk_accepts: { (k : ℕ) (r : List ℕ) → 1 ≤ k → k ≤ most_members → Self.TopK.accepts k r ≡ is_topk_record r };

    ghost latest_accepts: { (r : List ℕ) → Self.Latest.accepts 0 r ≡ is_latest_record r };
}
