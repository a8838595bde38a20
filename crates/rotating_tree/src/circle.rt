//! Places in a circle, changed in the order of the window.
ghost use Rattle.std.specs.Prelude.{◌≡◌, ℕ, ◌⊎◌, List, ◌+◌, ◌*◌, ◌<◌, ◌≤◌, Some, true, All, OnOk, OnErr, map, drop, length, slice_set};
ghost use Rattle.job_laws.specs.Counted.{RoseBy};
ghost use Rattle.record_text.specs.Shifts.{put_at};
ghost use Rattle.pin_table.specs.Covers.{AreGiven, Covered, Balanced};
ghost use Rattle.pin_table.specs.OwnEvents.{Met};
ghost use Rattle.tree_laws.specs.Pairs.{pair_digest};
ghost use Rattle.tree_laws.specs.Trees.{IsLeaf, IsWithin, distinct_keys};
ghost use Rattle.rotating_tree.specs.Nodes.{AllSome, IsSettled, IsEven, IsSound, IsStaged, IsMarked, undrafted, taken, places, size, height, node_pins, node_loose};
ghost use Rattle.rotating_tree.specs.Circles.{IsPlaceOf, IsTurn, IsStagedBy, IsAdvanced, slots, advanced, with_fresh};

use crate::node::Node;
use crate::putting::put;
use crate::rejoining::rejoin;
use crate::reverting::revert;
use job_laws::{Job, Meter};
use pin_table::{Caller, Memo};
use record_text::Places;
use sheets::Sheet;
use std::alloc::{AllocError, Global};
use std::sync::Wait;
use tree_laws::MergeRecipe;

/// The place of the first leaf in a circle of `n` places, after `gone` leaves left from `start` on. If all leaves are
/// fresh, it is that of the bucket number `first`.
pub(crate) fn start_after(n: usize, start: usize, first: u64, gone: usize, fresh: usize) -> usize
    requires { (start < n) × (gone ≤ n) }
    ensures { IsTurn n start gone result fresh }
{
    if fresh == n {
        (first % n as u64) as usize
    } else if gone < n - start {
        start + gone
    } else {
        gone - (n - start)
    }
}

// The place of the leaf that is `at` steps after the first one, which is at `start` in a circle of `n` places.
fn place_of(n: usize, start: usize, at: usize) -> usize
    requires { (start < n) × (at < n) }
    ensures { IsPlaceOf n start at result }
{
    if at < n - start {
        start + at
    } else {
        at - (n - start)
    }
}

// Puts one leaf into the draft of its place in the window.
fn put_in_turn<J: Job>(
    node: &mut Node<J>,
    width: usize,
    n: usize,
    start: usize,
    at: usize,
    sheet: Sheet<J>,
)
    requires staged { IsStaged node.old }
    requires even { IsEven node.old }
    requires width { (width ≡ size node.old) × (n ≤ width) × (start < n) × (at < n) }
    ensures step { IsStagedBy (pair_digest J.encoded) n 1 node.old node.new }
    ensures slots { slots n start (places (taken node.new)) ≡ slice_set (slots n start (places (taken node.old))) at (Some sheet) }
    ensures leaves { (setting : ℕ) → IsLeaf J.good setting sheet → AllSome (IsLeaf J.good setting) (places (taken node.old)) → AllSome (IsLeaf J.good setting) (places (taken node.new)) }
{
    put(node, width, place_of(n, start, at), sheet);
}

// Puts the changed leaves at these places of the window.
fn stage_places<J: Job>(
    node: &mut Node<J>,
    width: usize,
    n: usize,
    start: usize,
    changed: &Places,
    news: &[Sheet<J>],
) -> Result<(), AllocError>
    requires staged { IsStaged node.old }
    requires even { IsEven node.old }
    requires width { (width ≡ size node.old) × (n ≤ width) × (start < n) }
    requires fits { All (λ p. p < n) changed.now }
    requires same { length changed.now ≤ length news.now }
    ensures step { IsStagedBy (pair_digest J.encoded) n (length changed.now) node.old node.new }
    ensures slots { OnOk result (slots n start (places (taken node.new)) ≡ put_at changed.now (map Some news.now) (slots n start (places (taken node.old)))) }
    ensures leaves { (setting : ℕ) → All (λ s. s.setting ≡ setting) news.now → AllSome (IsLeaf J.good setting) (places (taken node.old)) → AllSome (IsLeaf J.good setting) (places (taken node.new)) }
{
    'places: for i in 0..changed.len() {
        let sheet = news[i].share()?;
        put_in_turn(node, width, n, start, changed.get(i), sheet);
    }
    Ok(())
}

// Puts the fresh leaves after the `kept` first ones.
fn stage_fresh<J: Job>(
    node: &mut Node<J>,
    width: usize,
    n: usize,
    start: usize,
    kept: usize,
    fresh: &[Sheet<J>],
) -> Result<(), AllocError>
    requires staged { IsStaged node.old }
    requires even { IsEven node.old }
    requires width { (width ≡ size node.old) × (n ≤ width) × (start < n) }
    requires fits { kept + length fresh.now ≤ n }
    ensures step { IsStagedBy (pair_digest J.encoded) n (length fresh.now) node.old node.new }
    ensures slots { OnOk result (slots n start (places (taken node.new)) ≡ with_fresh kept fresh.now (slots n start (places (taken node.old)))) }
    ensures leaves { (setting : ℕ) → All (λ s. s.setting ≡ setting) fresh.now → AllSome (IsLeaf J.good setting) (places (taken node.old)) → AllSome (IsLeaf J.good setting) (places (taken node.new)) }
{
    'fresh: for i in 0..fresh.len() {
        let sheet = fresh[i].share()?;
        put_in_turn(node, width, n, start, kept + i, sheet);
    }
    Ok(())
}

// Puts all leaves that a shift brings, those of its places first.
fn stage<J: Job>(
    node: &mut Node<J>,
    width: usize,
    n: usize,
    start: usize,
    kept: usize,
    changed: &Places,
    news: &[Sheet<J>],
) -> Result<(), AllocError>
    requires staged { IsStaged node.old }
    requires even { IsEven node.old }
    requires width { (width ≡ size node.old) × (n ≤ width) × (start < n) }
    requires fits { kept + length news.now ≤ n + length changed.now }
    requires changed { All (λ p. p < n) changed.now × (length changed.now ≤ length news.now) }
    ensures step { IsStagedBy (pair_digest J.encoded) n (length news.now) node.old node.new }
    ensures slots { OnOk result (slots n start (places (taken node.new)) ≡ advanced kept changed.now news.now (slots n start (places (taken node.old)))) }
    ensures leaves { (setting : ℕ) → All (λ s. s.setting ≡ setting) news.now → AllSome (IsLeaf J.good setting) (places (taken node.old)) → AllSome (IsLeaf J.good setting) (places (taken node.new)) }
{
    stage_places(node, width, n, start, changed, news)?;
    let (_, fresh) = news.split_at(changed.len());
    stage_fresh(node, width, n, start, kept, fresh)
}

// Stages the leaves, and makes the nodes over them again.
fn redraft<J: Job, W: Wait>(
    alloc: Global,
    rt: &W,
    memo: &Memo<MergeRecipe<J>>,
    caller: &mut Caller<MergeRecipe<J>>,
    job: &J,
    run: u64,
    node: &mut Node<J>,
    width: usize,
    n: usize,
    start: usize,
    kept: usize,
    changed: &Places,
    news: &[Sheet<J>],
    m: &mut J::Meter,
) -> Result<(), AllocError>
    requires of { caller.old.locks ≡ memo.now.locks }
    requires settled { IsSettled node.old }
    requires even { IsEven node.old }
    requires sound { IsSound J.joined node.old }
    requires leaves { AllSome (IsLeaf J.good (J.setting job.now)) (places node.old) }
    requires width { (width ≡ size node.old) × (n ≤ width) × (start < n) }
    requires fits { kept + length news.now ≤ n + length changed.now }
    requires changed { All (λ p. p < n) changed.now × (length changed.now ≤ length news.now) }
    requires settings { All (λ s. s.setting ≡ J.setting job.now) news.now }
    ensures kept { undrafted node.new ≡ node.old }
    ensures sound { OnOk result (IsSound J.joined (taken node.new)) }
    ensures leaves { AllSome (IsLeaf J.good (J.setting job.now)) (places (taken node.new)) }
    ensures slots { OnOk result (slots n start (places (taken node.new)) ≡ advanced kept changed.now news.now (slots n start (places node.old))) }
    ensures rest { drop n (places (taken node.new)) ≡ drop n (places node.old) }
    ensures marked { IsMarked node.new }
    ensures balanced { Balanced caller.old (node_pins (pair_digest J.encoded) node.old) caller.new (node_pins (pair_digest J.encoded) node.new) }
    ensures given { AreGiven caller.old (node_pins (pair_digest J.encoded) node.old) → AreGiven caller.new (node_pins (pair_digest J.encoded) node.new) }
    ensures loose { node_loose (taken node.new) ≡ true → (node_loose node.old ≡ true) ⊎ Met caller.old caller.new }
    ensures counted { (ts : List (List (List ℕ × J.Val))) → AllSome (λ s. IsWithin s.entries ts) (advanced kept changed.now news.now (slots n start (places node.old))) → AllSome (λ s. IsWithin s.entries ts) (drop n (places node.old)) → RoseBy 0 (height node.old * length news.now) (height node.old * length news.now * distinct_keys ts) (J.Meter.counts m.old) (J.Meter.counts m.new) }
{
    match stage(node, width, n, start, kept, changed, news) {
        Ok(()) => rejoin(alloc, rt, memo, caller, job, run, node, m),
        Err(e) => Err(e),
    }
}

/// Makes a draft of the shifted leaves: sheets for the `changed` places of the window from `start` on, and the fresh
/// ones after the first `kept` places. The leaves stay. Out of memory, there is no draft.
pub(crate) fn advance<J: Job, W: Wait>(
    alloc: Global,
    rt: &W,
    memo: &Memo<MergeRecipe<J>>,
    caller: &mut Caller<MergeRecipe<J>>,
    job: &J,
    run: u64,
    node: &mut Node<J>,
    width: usize,
    n: usize,
    start: usize,
    kept: usize,
    changed: &Places,
    news: &[Sheet<J>],
    m: &mut J::Meter,
) -> Result<(), AllocError>
    requires of { caller.old.locks ≡ memo.now.locks }
    requires covered { Covered caller.old (node_pins (pair_digest J.encoded) node.old) }
    requires settled { IsSettled node.old }
    requires even { IsEven node.old }
    requires sound { IsSound J.joined node.old }
    requires leaves { AllSome (IsLeaf J.good (J.setting job.now)) (places node.old) }
    requires width { (width ≡ size node.old) × (n ≤ width) × (start < n) }
    requires fits { kept + length news.now ≤ n + length changed.now }
    requires changed { All (λ p. p < n) changed.now × (length changed.now ≤ length news.now) }
    requires settings { All (λ s. s.setting ≡ J.setting job.now) news.now }
    ensures ok { OnOk result (IsAdvanced J.good J.joined (J.setting job.now) n start kept changed.now news.now node.old node.new) }
    ensures err { OnErr result (node.new ≡ node.old) }
    ensures balanced { Balanced caller.old (node_pins (pair_digest J.encoded) node.old) caller.new (node_pins (pair_digest J.encoded) node.new) }
    ensures given { AreGiven caller.new (node_pins (pair_digest J.encoded) node.new) }
    ensures loose { node_loose (taken node.new) ≡ true → (node_loose node.old ≡ true) ⊎ Met caller.old caller.new }
    ensures counted { (ts : List (List (List ℕ × J.Val))) → AllSome (λ s. IsWithin s.entries ts) (advanced kept changed.now news.now (slots n start (places node.old))) → AllSome (λ s. IsWithin s.entries ts) (drop n (places node.old)) → RoseBy 0 (height node.old * length news.now) (height node.old * length news.now * distinct_keys ts) (J.Meter.counts m.old) (J.Meter.counts m.new) }
{
    match redraft(
        alloc, rt, memo, caller, job, run, node, width, n, start, kept, changed, news, m,
    ) {
        Ok(()) => return Ok(()),
        Err(e) => {
            revert(rt, memo, caller, node);
            return Err(e);
        }
    }
}
