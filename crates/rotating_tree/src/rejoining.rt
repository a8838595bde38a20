//! The merges of an advance: each node that is due is made once, after those below it.
ghost use Rattle.std.specs.Prelude.{◌≡◌, ◌⊎◌, ℕ, List, ◌++◌, ◌+◌, ◌*◌, ◌<◌, ◌||◌, true, IfOk, OnOk};
ghost use Rattle.job_laws.specs.Counted.{RoseBy};
ghost use Rattle.pin_table.specs.Covers.{AreGiven, Balanced};
ghost use Rattle.pin_table.specs.OwnEvents.{Met};
ghost use Rattle.tree_laws.specs.Pairs.{pair_digest};
ghost use Rattle.tree_laws.specs.Trees.{IsLeaf, IsWithin, distinct_keys};
ghost use Rattle.rotating_tree.specs.Nodes.{AllSome, IsEven, IsSound, IsStaged, IsMarked, IsJoined, undrafted, taken, places, height, drafts, now_of, made_pins, made_loose, node_pins, node_loose};

use crate::draft::Draft;
use crate::joining::join_halves;
use crate::node::{Node, is_due, next};
use crate::part::Part;
use job_laws::{Job, Meter};
use pin_table::{Caller, Memo};
use std::alloc::{AllocError, Global};
use std::sync::Wait;
use tree_laws::MergeRecipe;

/// Makes each node that is due. Out of memory, those that it made before stay in their drafts.
#[cycle(rejoin)]
pub(crate) fn rejoin<J: Job, W: Wait>(
    alloc: Global,
    rt: &W,
    memo: &Memo<MergeRecipe<J>>,
    caller: &mut Caller<MergeRecipe<J>>,
    job: &J,
    run: u64,
    node: &mut Node<J>,
    m: &mut J::Meter,
) -> Result<(), AllocError>
    requires of { caller.old.locks ≡ memo.now.locks }
    requires staged { IsStaged node.old }
    requires even { IsEven node.old }
    requires sound { IsSound J.joined (undrafted node.old) }
    requires leaves { AllSome (IsLeaf J.good (J.setting job.now)) (places (taken node.old)) }
    ensures kept { undrafted node.new ≡ undrafted node.old }
    ensures sound { OnOk result (IsSound J.joined (taken node.new)) }
    ensures places { places (taken node.new) ≡ places (taken node.old) }
    ensures marked { IsMarked node.new }
    ensures balanced { Balanced caller.old (node_pins (pair_digest J.encoded) node.old) caller.new (node_pins (pair_digest J.encoded) node.new) }
    ensures given { AreGiven caller.old (node_pins (pair_digest J.encoded) node.old) → AreGiven caller.new (node_pins (pair_digest J.encoded) node.new) }
    ensures loose { node_loose (taken node.new) ≡ true → (node_loose (taken node.old) ≡ true) ⊎ Met caller.old caller.new }
    ensures counted { (ts : List (List (List ℕ × J.Val))) → AllSome (λ s. IsWithin s.entries ts) (places (taken node.old)) → RoseBy 0 (height node.old * drafts node.old) (height node.old * drafts node.old * distinct_keys ts) (J.Meter.counts m.old) (J.Meter.counts m.new) }
{
    if !is_due(node) {
        return Ok(());
    }
    match node {
        Node::Leaf(_, _) => Ok(()),
        Node::Fork(left, right, _, draft) => {
            match fork(alloc, rt, memo, caller, job, run, left, right, m) {
                Ok(part) => {
                    *draft = Draft::New(part);
                    return Ok(());
                }
                Err(e) => return Err(e),
            }
        }
    }
}

// Makes what is due in both halves of a due node, and returns the node's new part.
#[cycle(rejoin)]
fn fork<J: Job, W: Wait>(
    alloc: Global,
    rt: &W,
    memo: &Memo<MergeRecipe<J>>,
    caller: &mut Caller<MergeRecipe<J>>,
    job: &J,
    run: u64,
    left: &mut Node<J>,
    right: &mut Node<J>,
    m: &mut J::Meter,
) -> Result<Part<J>, AllocError>
    requires of { caller.old.locks ≡ memo.now.locks }
    requires staged { IsStaged left.old × IsStaged right.old }
    requires even { IsEven left.old × IsEven right.old × (height left.old ≡ height right.old) }
    requires sound { IsSound J.joined (undrafted left.old) × IsSound J.joined (undrafted right.old) }
    requires leaves { AllSome (IsLeaf J.good (J.setting job.now)) (places (taken left.old)) × AllSome (IsLeaf J.good (J.setting job.now)) (places (taken right.old)) }
    requires due { 0 < drafts left.old + drafts right.old }
    ensures kept { (undrafted left.new ≡ undrafted left.old) × (undrafted right.new ≡ undrafted right.old) }
    ensures sound { OnOk result (IsSound J.joined (taken left.new) × IsSound J.joined (taken right.new)) }
    ensures joined { IfOk result (λ part. IsJoined J.joined (now_of (taken left.new)) (now_of (taken right.new)) part) }
    ensures places { (places (taken left.new) ≡ places (taken left.old)) × (places (taken right.new) ≡ places (taken right.old)) }
    ensures marked { IsMarked left.new × IsMarked right.new }
    ensures balanced { Balanced caller.old (node_pins (pair_digest J.encoded) left.old ++ node_pins (pair_digest J.encoded) right.old) caller.new (node_pins (pair_digest J.encoded) left.new ++ (node_pins (pair_digest J.encoded) right.new ++ made_pins (pair_digest J.encoded) result)) }
    ensures given { AreGiven caller.old (node_pins (pair_digest J.encoded) left.old ++ node_pins (pair_digest J.encoded) right.old) → AreGiven caller.new (node_pins (pair_digest J.encoded) left.new ++ (node_pins (pair_digest J.encoded) right.new ++ made_pins (pair_digest J.encoded) result)) }
    ensures loose { (node_loose (taken left.new) || (node_loose (taken right.new) || made_loose result)) ≡ true → ((node_loose (taken left.old) || node_loose (taken right.old)) ≡ true) ⊎ Met caller.old caller.new }
    ensures counted { (ts : List (List (List ℕ × J.Val))) → AllSome (λ s. IsWithin s.entries ts) (places (taken left.old)) → AllSome (λ s. IsWithin s.entries ts) (places (taken right.old)) → RoseBy 0 ((height left.old + 1) * (drafts left.old + drafts right.old)) ((height left.old + 1) * (drafts left.old + drafts right.old) * distinct_keys ts) (J.Meter.counts m.old) (J.Meter.counts m.new) }
{
    match rejoin(alloc, rt, memo, caller, job, run, left, m) {
        Ok(()) => (),
        Err(e) => return Err(e),
    }
    match rejoin(alloc, rt, memo, caller, job, run, right, m) {
        Ok(()) => (),
        Err(e) => return Err(e),
    }
    match join_halves(
        alloc,
        rt,
        memo,
        caller,
        job,
        run,
        next(left),
        next(right),
        m,
    ) {
        Ok(part) => return Ok(part),
        Err(e) => return Err(e),
    }
}
