//! The part of a node over two halves: a merge only if both have a sheet.
ghost use Rattle.std.specs.Prelude.{◌≡◌, ◌⊎◌, ℕ, ◌*◌, List, [], true, IfSome, IsSome, Some, IfOk, OnErr, option_copied};
ghost use Rattle.job_laws.specs.Counted.{RoseBy};
ghost use Rattle.pin_table.specs.Covers.{AreGiven, Got};
ghost use Rattle.pin_table.specs.OwnEvents.{Met};
ghost use Rattle.tree_laws.specs.Pairs.{pair_digest};
ghost use Rattle.tree_laws.specs.Trees.{IsLeaf, IsWithin, distinct_keys};
ghost use Rattle.folding_tree.specs.Levels.{IsMade, merges_by, part_pins, part_loose};

use crate::part::Part;
use job_laws::{Job, Meter};
use pin_table::{Caller, Memo};
use sheets::Sheet;
use std::alloc::{AllocError, Global};
use std::sync::Wait;
use tree_laws::{MergeRecipe, merge_through};

/// The part of a node over two halves: their merge, or a share of the only sheet. It costs at most one merge, and none
/// unless both are there. It fails only out of memory.
pub(crate) fn join_halves<J: Job, W: Wait>(
    alloc: Global,
    rt: &W,
    memo: &Memo<MergeRecipe<J>>,
    caller: &mut Caller<MergeRecipe<J>>,
    job: &J,
    run: u64,
    a: Option<&Sheet<J>>,
    b: Option<&Sheet<J>>,
    m: &mut J::Meter,
) -> Result<Part<J>, AllocError>
    requires of { caller.old.locks ≡ memo.now.locks }
    requires left { IfSome (option_copied a) (IsLeaf J.good (J.setting job.now)) }
    requires right { IfSome (option_copied b) (IsLeaf J.good (J.setting job.now)) }
    requires some { IsSome (option_copied a) ⊎ IsSome (option_copied b) }
    ensures made { IfOk result (λ part. IsMade J.joined (option_copied a.entry) (option_copied b.entry) (Some part)) }
    ensures got { IfOk result (λ part. Got caller.old (part_pins (pair_digest J.encoded) part) caller.new) }
    ensures given { IfOk result (λ part. AreGiven caller.new (part_pins (pair_digest J.encoded) part)) }
    ensures loose { IfOk result (λ part. part_loose part ≡ true → Met caller.old caller.new) }
    ensures err { OnErr result (Got caller.old [] caller.new) }
    ensures counted { (ts : List (List (List ℕ × J.Val))) → IfSome (option_copied a.entry) (λ s. IsWithin s.entries ts) → RoseBy 0 (merges_by (option_copied a.entry) (option_copied b.entry)) (merges_by (option_copied a.entry) (option_copied b.entry) * distinct_keys ts) (J.Meter.counts m.old) (J.Meter.counts m.new) }
{
    match (a, b) {
        (None, None) => unreachable!(),
        (Some(only), None) => return share(only),
        (None, Some(only)) => return share(only),
        (Some(left), Some(right)) => {
            match merge_through(alloc, rt, memo, caller, job, run, left, right, m) {
                Ok(hold) => return Ok(Part::Merged(hold)),
                Err(e) => return Err(e),
            }
        }
    }
}

// A part that shares the sheet.
fn share<J: Job>(sheet: &Sheet<J>) -> Result<Part<J>, AllocError>
    ensures { IfOk result (λ part. part ≡ Part.Shared sheet.now) }
{
    Ok(Part::Shared(sheet.share()?))
}
