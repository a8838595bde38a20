//! The merges of an advance: nodes over a level that has its draft.
ghost use Rattle.std.specs.Prelude.{◌≡◌, ℕ, ◌+◌, ◌*◌, ◌<◌, ◌≤◌, List, [], true, All, Some, length, IfOk, OnOk, OnErr};
ghost use Rattle.std.specs.VecDeque.{deque_capacity};
ghost use Rattle.job_laws.specs.Counted.{RoseBy};
ghost use Rattle.pin_table.specs.Covers.{AreGiven, Got};
ghost use Rattle.pin_table.specs.OwnEvents.{Met};
ghost use Rattle.tree_laws.specs.Pairs.{pair_digest};
ghost use Rattle.tree_laws.specs.Trees.{IsLeaf, IsWithin, distinct_keys};
ghost use Rattle.folding_tree.specs.Levels.{IsFit, HasHalf, IsMade, AreMade, EachSheet, row_after, sheet_at, merges_by, merges_over, part_pins, part_loose, parts_pins, parts_loose};
ghost use Rattle.folding_tree.specs.Folding.{row_of, ahead_of};
ghost use Rattle.tree_laws.specs.Trades.{Trades};

use crate::draft::{Draft, next};
use crate::joining::join_halves;
use crate::letting::let_last_go;
use crate::level::Level;
use crate::part::Part;
use job_laws::{Job, Meter};
use pin_table::{Caller, Memo};
use std::alloc::{AllocError, Global};
use std::collections::VecDeque;
use std::sync::Wait;
use tree_laws::MergeRecipe;

/// Makes the nodes at these places of the level over one that has its draft, each once. If it fails, it leaves no pin.
pub(crate) fn make_all<J: Job, W: Wait>(
    alloc: Global,
    rt: &W,
    memo: &Memo<MergeRecipe<J>>,
    caller: &mut Caller<MergeRecipe<J>>,
    job: &J,
    run: u64,
    below: &Level<J>,
    draft: &Draft<J>,
    places: &[usize],
    m: &mut J::Meter,
) -> Result<VecDeque<Part<J>>, AllocError>
    requires of { caller.old.locks ≡ memo.now.locks }
    requires fits { IsFit (row_of below.now) (ahead_of draft.now) }
    requires leaves { EachSheet (IsLeaf J.good (J.setting job.now)) (row_after (row_of below.now) (ahead_of draft.now)) }
    requires halves { All (HasHalf (ahead_of draft.now)) places.now }
    ensures made { IfOk result (λ parts. AreMade J.joined (row_after (row_of below.now) (ahead_of draft.now)) places.now parts.items) }
    ensures trades { IfOk result (λ parts. Trades caller.old [] caller.new (parts_pins (pair_digest J.encoded) parts.items)) }
    ensures loose { IfOk result (λ parts. parts_loose parts.items ≡ true → Met caller.old caller.new) }
    ensures err { OnErr result (Trades caller.old [] caller.new []) }
    ensures counted { (ts : List (List (List ℕ × J.Val))) → EachSheet (λ s. IsWithin s.entries ts) (row_after (row_of below.now) (ahead_of draft.now)) → let n = merges_over (row_after (row_of below.now) (ahead_of draft.now)) places.now in RoseBy 0 n (n * distinct_keys ts) (J.Meter.counts m.old) (J.Meter.counts m.new) }
{
    let mut made = match VecDeque::with_capacity(alloc, places.len()) {
        Ok(made) => made,
        Err(e) => return Err(e),
    };
    match make_into(
        alloc, rt, memo, caller, job, run, below, draft, places, &mut made, m,
    ) {
        Ok(()) => return Ok(made),
        Err(e) => {
            let_last_go(rt, memo, caller, &mut made, 0);
            return Err(e);
        }
    }
}

// The same, into a list with room for them. If it fails, those made before are in the list.
fn make_into<J: Job, W: Wait>(
    alloc: Global,
    rt: &W,
    memo: &Memo<MergeRecipe<J>>,
    caller: &mut Caller<MergeRecipe<J>>,
    job: &J,
    run: u64,
    below: &Level<J>,
    draft: &Draft<J>,
    places: &[usize],
    made: &mut VecDeque<Part<J>>,
    m: &mut J::Meter,
) -> Result<(), AllocError>
    requires of { caller.old.locks ≡ memo.now.locks }
    requires fits { IsFit (row_of below.now) (ahead_of draft.now) }
    requires leaves { EachSheet (IsLeaf J.good (J.setting job.now)) (row_after (row_of below.now) (ahead_of draft.now)) }
    requires halves { All (HasHalf (ahead_of draft.now)) places.now }
    requires none { made.old.items ≡ [] }
    requires room { length places.now ≤ deque_capacity made.old }
    ensures made { OnOk result (AreMade J.joined (row_after (row_of below.now) (ahead_of draft.now)) places.now made.new.items) }
    ensures got { Got caller.old (parts_pins (pair_digest J.encoded) made.new.items) caller.new }
    ensures given { AreGiven caller.new (parts_pins (pair_digest J.encoded) made.new.items) }
    ensures loose { parts_loose made.new.items ≡ true → Met caller.old caller.new }
    ensures counted { (ts : List (List (List ℕ × J.Val))) → EachSheet (λ s. IsWithin s.entries ts) (row_after (row_of below.now) (ahead_of draft.now)) → let n = merges_over (row_after (row_of below.now) (ahead_of draft.now)) places.now in RoseBy 0 n (n * distinct_keys ts) (J.Meter.counts m.old) (J.Meter.counts m.new) }
{
    'places: for i in 0..places.len() {
        match make(
            alloc, rt, memo, caller, job, run, below, draft, places[i], m,
        ) {
            Ok(part) => made.push_back_reserved(part),
            Err(e) => return Err(e),
        }
    }
    Ok(())
}

// Makes one node.
fn make<J: Job, W: Wait>(
    alloc: Global,
    rt: &W,
    memo: &Memo<MergeRecipe<J>>,
    caller: &mut Caller<MergeRecipe<J>>,
    job: &J,
    run: u64,
    below: &Level<J>,
    draft: &Draft<J>,
    place: usize,
    m: &mut J::Meter,
) -> Result<Part<J>, AllocError>
    requires of { caller.old.locks ≡ memo.now.locks }
    requires fits { IsFit (row_of below.now) (ahead_of draft.now) }
    requires leaves { EachSheet (IsLeaf J.good (J.setting job.now)) (row_after (row_of below.now) (ahead_of draft.now)) }
    requires half { HasHalf (ahead_of draft.now) place }
    ensures made { IfOk result (λ part. IsMade J.joined (sheet_at (row_after (row_of below.now) (ahead_of draft.now)) (2 * place)) (sheet_at (row_after (row_of below.now) (ahead_of draft.now)) (2 * place + 1)) (Some part)) }
    ensures got { IfOk result (λ part. Got caller.old (part_pins (pair_digest J.encoded) part) caller.new) }
    ensures given { IfOk result (λ part. AreGiven caller.new (part_pins (pair_digest J.encoded) part)) }
    ensures loose { IfOk result (λ part. part_loose part ≡ true → Met caller.old caller.new) }
    ensures err { OnErr result (Got caller.old [] caller.new) }
    ensures counted { (ts : List (List (List ℕ × J.Val))) → EachSheet (λ s. IsWithin s.entries ts) (row_after (row_of below.now) (ahead_of draft.now)) → let n = merges_by (sheet_at (row_after (row_of below.now) (ahead_of draft.now)) (2 * place)) (sheet_at (row_after (row_of below.now) (ahead_of draft.now)) (2 * place + 1)) in RoseBy 0 n (n * distinct_keys ts) (J.Meter.counts m.old) (J.Meter.counts m.new) }
{
    let _high = draft.high;
    let left = next(below, draft, 2 * place);
    let right = next(below, draft, 2 * place + 1);
    match join_halves(alloc, rt, memo, caller, job, run, left, right, m) {
        Ok(part) => return Ok(part),
        Err(e) => return Err(e),
    }
}
