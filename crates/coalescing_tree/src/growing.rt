//! The merges of an advance. Room for all of them is reserved first, so that none is lost once it is pinned.
ghost use Rattle.std.specs.Prelude.{◌≡◌, ℕ, ◌-◌, ◌*◌, ◌<◌, ◌≤◌, true, List, [], length, take, vec_len, vec_capacity, All, Some, IfOk, OnOk, OnErr, option_copied};
ghost use Rattle.job_laws.specs.Counted.{RoseBy};
ghost use Rattle.sheets.specs.United.{tables_of};
ghost use Rattle.pin_table.specs.Covers.{Balanced};
ghost use Rattle.pin_table.specs.OwnEvents.{Met};
ghost use Rattle.tree_laws.specs.Holds.{some_loose, all_pins};
ghost use Rattle.tree_laws.specs.Pairs.{pair_digest};
ghost use Rattle.tree_laws.specs.Trees.{IsLeaf, IsWithin, distinct_keys};
ghost use Rattle.tree_laws.specs.Trades.{Gets};
ghost use Rattle.coalescing_tree.specs.Growing.{last_of, IsTop, IsSoundDraft, draft_loose, draft_pins};

use crate::draft::Draft;
use crate::root::root_over;
use job_laws::{Job, Meter};
use pin_table::{Caller, Memo};
use sheets::Sheet;
use std::alloc::{AllocError, Global};
use std::sync::Wait;
use tree_laws::{Hold, MergeRecipe, let_all_go, merge_through};

/// Makes the draft over all leaves, of which the first `standing` are under the top already. If it fails, it leaves no
/// pin.
pub(crate) fn draft_over<J: Job, W: Wait>(
    alloc: Global,
    rt: &W,
    memo: &Memo<MergeRecipe<J>>,
    caller: &mut Caller<MergeRecipe<J>>,
    job: &J,
    run: u64,
    leaves: &[Sheet<J>],
    standing: usize,
    top: Option<&Hold<J>>,
    m: &mut J::Meter,
) -> Result<Draft<J>, AllocError>
    requires of { caller.old.locks ≡ memo.now.locks }
    requires within { standing ≤ length leaves.now }
    requires leaves { All (IsLeaf J.good (J.setting job.now)) leaves.now }
    requires top { IsTop J.joined (J.setting job.now) (take standing leaves.now) (option_copied top) }
    ensures sound { IfOk result (λ draft. IsSoundDraft J.joined (J.setting job.now) leaves.now standing (Some draft)) }
    ensures got { IfOk result (λ draft. Gets caller.old (draft_pins (pair_digest J.encoded) (Some draft)) caller.new) }
    ensures loose { IfOk result (λ draft. draft_loose draft ≡ true → Met caller.old caller.new) }
    ensures err { OnErr result (Balanced caller.old [] caller.new []) }
    ensures counted { RoseBy 0 (length leaves.now - standing) ((length leaves.now - standing) * distinct_keys (tables_of leaves.now)) (J.Meter.counts m.old) (J.Meter.counts m.new) }
{
    if standing == leaves.len() {
        return Ok(Draft::Same);
    }
    let mut made = Vec::new(alloc);
    match made.reserve(leaves.len() - standing) {
        Ok(()) => (),
        Err(e) => return Err(e),
    }
    match grow(
        alloc, rt, memo, caller, job, run, leaves, standing, top, &mut made, m,
    ) {
        Ok(()) => return Ok(Draft::Merged(made)),
        Err(e) => {
            let_all_go(rt, memo, caller, made);
            return Err(e);
        }
    }
}

/// Puts the merges of the leaves from `standing` on into `made`, in the order in which it makes them: the last one is
/// over all leaves. If it fails, those made before are in `made`.
fn grow<J: Job, W: Wait>(
    alloc: Global,
    rt: &W,
    memo: &Memo<MergeRecipe<J>>,
    caller: &mut Caller<MergeRecipe<J>>,
    job: &J,
    run: u64,
    leaves: &[Sheet<J>],
    standing: usize,
    top: Option<&Hold<J>>,
    made: &mut Vec<Hold<J>>,
    m: &mut J::Meter,
) -> Result<(), AllocError>
    requires of { caller.old.locks ≡ memo.now.locks }
    requires within { standing < length leaves.now }
    requires leaves { All (IsLeaf J.good (J.setting job.now)) leaves.now }
    requires top { IsTop J.joined (J.setting job.now) (take standing leaves.now) (option_copied top) }
    requires none { made.old.items ≡ [] }
    requires room { length leaves.now - standing ≤ vec_capacity made.old }
    ensures top { OnOk result (IsTop J.joined (J.setting job.now) leaves.now (last_of made.new.items)) }
    ensures got { Gets caller.old (all_pins (pair_digest J.encoded) made.new.items) caller.new }
    ensures loose { some_loose (last_of made.new.items) ≡ true → Met caller.old caller.new }
    ensures counted { RoseBy 0 (length leaves.now - standing) ((length leaves.now - standing) * distinct_keys (tables_of leaves.now)) (J.Meter.counts m.old) (J.Meter.counts m.new) }
{
    let (old, fresh) = leaves.split_at(standing);
    match chain(alloc, rt, memo, caller, job, run, fresh, made, m) {
        Ok(()) => (),
        Err(e) => return Err(e),
    }
    let Some(right) = root_over(fresh, made.last()) else {
        unreachable!()
    };
    match root_over(old, top) {
        None => return Ok(()),
        Some(left) => match merge_through(alloc, rt, memo, caller, job, run, left, right, m) {
            Ok(hold) => {
                made.push_reserved(hold);
                return Ok(());
            }
            Err(e) => return Err(e),
        },
    }
}

/// Puts the merges of the fresh leaves from left to right into `made`; the last one is over all of them.
fn chain<J: Job, W: Wait>(
    alloc: Global,
    rt: &W,
    memo: &Memo<MergeRecipe<J>>,
    caller: &mut Caller<MergeRecipe<J>>,
    job: &J,
    run: u64,
    fresh: &[Sheet<J>],
    made: &mut Vec<Hold<J>>,
    m: &mut J::Meter,
) -> Result<(), AllocError>
    requires of { caller.old.locks ≡ memo.now.locks }
    requires some { 0 < length fresh.now }
    requires leaves { All (IsLeaf J.good (J.setting job.now)) fresh.now }
    requires none { made.old.items ≡ [] }
    requires room { length fresh.now ≤ vec_capacity made.old }
    ensures top { OnOk result (IsTop J.joined (J.setting job.now) fresh.now (last_of made.new.items)) }
    ensures count { vec_len made.new < length fresh.now }
    ensures room { vec_capacity made.new ≡ vec_capacity made.old }
    ensures got { Gets caller.old (all_pins (pair_digest J.encoded) made.new.items) caller.new }
    ensures loose { some_loose (last_of made.new.items) ≡ true → Met caller.old caller.new }
    ensures counted { (ts : List (List (List ℕ × J.Val))) → All (λ s. IsWithin s.entries ts) fresh.now → RoseBy 0 (length fresh.now - 1) ((length fresh.now - 1) * distinct_keys ts) (J.Meter.counts m.old) (J.Meter.counts m.new) }
{
    'fresh: for i in 1..fresh.len() {
        let Some(left) = root_over(&fresh[..i], made.last()) else {
            unreachable!()
        };
        match merge_through(alloc, rt, memo, caller, job, run, left, &fresh[i], m) {
            Ok(hold) => made.push_reserved(hold),
            Err(e) => return Err(e),
        }
    }
    Ok(())
}
