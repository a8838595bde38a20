//! An advance drafts the leaves, then each level above them.
ghost use Rattle.std.specs.Prelude.{◌≡◌, ◌+◌, ◌<◌, ◌≤◌, length, map, All, OnOk, OnErr};
ghost use Rattle.record_text.specs.Shifts.{FitsShift};
ghost use Rattle.record_text.specs.declared.kind.Kind.TheVariants.{Document};
ghost use Rattle.tree_laws.specs.Pairs.{pair_digest};
ghost use Rattle.tree_laws.specs.Trees.{IsLeaf};
ghost use Rattle.random_tree.specs.Levels.{Fits, HasRoom, IsUndrafted, IsTree, bottom, now_of, group_table};
ghost use Rattle.random_tree.specs.Steps.{StagesLeaves, IsPlain, GainsLevels, AddsEmpty, Drafts, DraftsSome};

use crate::level::Level;
use crate::raising::{add_levels, raise};
use crate::sharing::share_all;
use job_laws::{Job, Meter};
use pin_table::{Caller, Memo};
use record_text::Shift;
use sheets::Sheet;
use std::alloc::{AllocError, Global};
use std::sync::Wait;
use tree_laws::MergeRecipe;

/// Drafts all levels by a splice of the leaves. Out of memory, some of them have drafts.
pub(crate) fn draft_all<J: Job, W: Wait>(
    alloc: Global,
    rt: &W,
    memo: &Memo<MergeRecipe<J>>,
    caller: &mut Caller<MergeRecipe<J>>,
    job: &J,
    run: u64,
    shift: &Shift,
    fresh: &[Sheet<J>],
    levels: &mut Vec<Level<J>>,
    m: &mut J::Meter,
) -> Result<(), AllocError>
    requires of { caller.old.locks ≡ memo.now.locks }
    requires some { 0 < length levels.old.items }
    requires undrafted { All IsUndrafted levels.old.items }
    requires tree { IsTree J.joined (J.setting job.now) J.encoded (map group_table (bottom (map now_of levels.old.items))) (map now_of levels.old.items) }
    requires fits { FitsShift Document 0 0 (length (bottom (map now_of levels.old.items))) (length fresh.now) shift.now }
    requires settings { All (λ s. s.setting ≡ J.setting job.now) fresh.now }
    ensures some { 0 < length levels.new.items }
    ensures fits { All Fits levels.new.items }
    ensures room { OnOk result (All HasRoom levels.new.items) }
    ensures sound { OnOk result (All (IsLeaf J.good (J.setting job.now)) fresh.now) }
    ensures same { AddsEmpty (map now_of levels.old.items) (map now_of levels.new.items) }
    ensures ok { OnOk result (Drafts J.joined (J.setting job.now) J.encoded shift.now fresh.now caller.old caller.new (J.Meter.counts m.old) (J.Meter.counts m.new) levels.old.items levels.new.items) }
    ensures err { OnErr result (DraftsSome J.joined (J.setting job.now) J.encoded J.good shift.now fresh.now caller.old caller.new (J.Meter.counts m.old) (J.Meter.counts m.new) levels.old.items) }
    ensures gains { GainsLevels (pair_digest J.encoded) caller.old caller.new levels.new.items }
{
    let Shift::Splice {
        first,
        gone,
        fresh: _,
    } = shift
    else {
        unreachable!()
    };
    match add_levels(alloc, levels, levels[0].groups.len() - *gone + fresh.len()) {
        Ok(()) => (),
        Err(e) => return Err(e),
    }
    let Some((leaves, above)) = levels.as_mut_slice().split_first_mut() else {
        unreachable!()
    };
    match stage(alloc, leaves, *first, *gone, fresh) {
        Ok(()) => (),
        Err(e) => return Err(e),
    }
    return raise(alloc, rt, memo, caller, job, run, leaves, above, m);
}

// Drafts the lowest level.
fn stage<J: Job>(
    alloc: Global,
    leaves: &mut Level<J>,
    first: usize,
    gone: usize,
    fresh: &[Sheet<J>],
) -> Result<(), AllocError>
    requires undrafted { IsUndrafted leaves.old }
    requires within { first + gone ≤ length (now_of leaves.old) }
    ensures same { now_of leaves.new ≡ now_of leaves.old }
    ensures fits { Fits leaves.new }
    ensures room { OnOk result (HasRoom leaves.new) }
    ensures sound { OnOk result (All (λ s. IsLeaf J.good s.setting s) fresh.now) }
    ensures ok { OnOk result (StagesLeaves first gone fresh.now leaves.new) }
    ensures err { OnErr result (IsPlain leaves.new) }
{
    match share_all(alloc, &mut leaves.draft.fresh, fresh) {
        Ok(()) => (),
        Err(e) => return Err(e),
    }
    match leaves.groups.reserve(fresh.len()) {
        Ok(()) => (),
        Err(e) => return Err(e),
    }
    leaves.draft.first = first;
    leaves.draft.gone = gone;
    Ok(())
}
