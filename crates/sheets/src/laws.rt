//! How parts of tables relate to each other.
ghost use Rattle.std.specs.Prelude.{ℕ};
ghost use Rattle.sheets.specs.Parts.{PartsAppend, PartsMerge, PartsShare, PartsUnite};

use job_laws::Job;

/// The laws of the parts of a job's tables, at each setting. A call does nothing but hand them to its caller.
pub fn part_laws<J: Job>()
    ensures append { (s : ℕ) → PartsAppend (J.good s) (J.joined s) }
    ensures merge { (s : ℕ) → PartsMerge (J.joined s) }
    ensures unite { PartsUnite J.Val }
    ensures share { (s : ℕ) → PartsShare (J.joined s) }
{}
