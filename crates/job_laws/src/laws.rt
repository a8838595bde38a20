//! What a job's laws give for tables.
ghost use Rattle.std.specs.Prelude.{ℕ};
ghost use Rattle.job_laws.specs.Laws.{TablesAppend, MergingAssociates, MergingCommutes, TablesKeepGood, MergesKeepGood};

use crate::{Job, Swaps};

/// The laws of tables for a job, at each setting. A call does nothing but hand them to its caller.
pub fn table_laws<J: Job>()
    ensures append { (s : ℕ) → TablesAppend (J.good s) (J.joined s) }
    ensures assoc { (s : ℕ) → MergingAssociates (J.good s) (J.joined s) }
    ensures tables_good { (s : ℕ) → TablesKeepGood (J.good s) (J.joined s) }
    ensures merges_good { (s : ℕ) → MergesKeepGood (J.good s) (J.joined s) }
{}

/// Tables of a job that swaps may be merged in either order, at each setting. A call does nothing but hand this to its
/// caller.
pub fn merging_commutes<J: Swaps>()
    ensures { (s : ℕ) → MergingCommutes (J.good s) (J.joined s) }
{}
