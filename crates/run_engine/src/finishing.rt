//! How a run becomes final, or is undone. Nothing here takes memory.
ghost use Rattle.std.specs.Prelude.{◌≡◌, All};
ghost use Rattle.run_engine.specs.InPlace.{EachPair};
ghost use Rattle.run_engine.specs.Finishing.{MaySettle, MayRevert, SettlesTree, RevertsTree, SettlesLane, RevertsLane};

use crate::lane_seat::LaneSeat;
use crate::part_seat::PartSeat;
use job_laws::Job;
use map_tasks::MapRecipe;
use pin_table::Memo;
use std::sync::Wait;
use tree_laws::{MergeRecipe, Tree};

/// Makes a run final, in all lanes and all trees.
pub(crate) fn finish<J: Job, T: Tree<J>, W: Wait>(
    rt: &W,
    leaf_memo: &Memo<MapRecipe<J>>,
    merge_memo: &Memo<MergeRecipe<J>>,
    lanes: &mut Vec<LaneSeat<J>>,
    parts: &mut Vec<PartSeat<J, T>>,
)
    requires lanes { All (λ s. s.lane.caller.locks ≡ leaf_memo.now.locks) lanes.old.items }
    requires parts { All (λ s. MaySettle T.view T.pins merge_memo.now.locks s.tree s.caller) parts.old.items }
    ensures lanes { EachPair (λ k s t. SettlesLane s.lane t.lane t.fresh.items t.gone.items) lanes.old.items lanes.new.items }
    ensures parts { EachPair (λ p s t. SettlesTree T.view T.pins T.most s.tree s.caller t.tree t.caller t.fresh.items) parts.old.items parts.new.items }
{
    settle_lanes(rt, leaf_memo, lanes);
    settle_parts(rt, merge_memo, parts);
}

/// Undoes a run, in all lanes and all trees, including those that succeeded.
pub(crate) fn undo<J: Job, T: Tree<J>, W: Wait>(
    rt: &W,
    leaf_memo: &Memo<MapRecipe<J>>,
    merge_memo: &Memo<MergeRecipe<J>>,
    lanes: &mut Vec<LaneSeat<J>>,
    parts: &mut Vec<PartSeat<J, T>>,
)
    requires lanes { All (λ s. s.lane.caller.locks ≡ leaf_memo.now.locks) lanes.old.items }
    requires parts { All (λ s. MayRevert T.pins merge_memo.now.locks s.tree s.caller) parts.old.items }
    ensures lanes { EachPair (λ k s t. RevertsLane s.lane t.lane t.fresh.items t.gone.items) lanes.old.items lanes.new.items }
    ensures parts { EachPair (λ p s t. RevertsTree T.view T.pins T.most s.tree s.caller t.tree t.caller t.fresh.items) parts.old.items parts.new.items }
{
    revert_lanes(rt, leaf_memo, lanes);
    revert_parts(rt, merge_memo, parts);
}

// Makes the notes of each lane final.
fn settle_lanes<J: Job, W: Wait>(rt: &W, memo: &Memo<MapRecipe<J>>, lanes: &mut Vec<LaneSeat<J>>)
    requires { All (λ s. s.lane.caller.locks ≡ memo.now.locks) lanes.old.items }
    ensures { EachPair (λ k s t. SettlesLane s.lane t.lane t.fresh.items t.gone.items) lanes.old.items lanes.new.items }
{
    'lanes: for i in 0..lanes.len() {
        let seat = &mut lanes[i];
        seat.lane.settle(rt, memo);
        seat.fresh.clear();
        seat.gone.clear();
    }
}

// Undoes the notes of each lane.
fn revert_lanes<J: Job, W: Wait>(rt: &W, memo: &Memo<MapRecipe<J>>, lanes: &mut Vec<LaneSeat<J>>)
    requires { All (λ s. s.lane.caller.locks ≡ memo.now.locks) lanes.old.items }
    ensures { EachPair (λ k s t. RevertsLane s.lane t.lane t.fresh.items t.gone.items) lanes.old.items lanes.new.items }
{
    'lanes: for i in 0..lanes.len() {
        let seat = &mut lanes[i];
        seat.lane.revert(rt, memo);
        seat.fresh.clear();
        seat.gone.clear();
    }
}

// Makes the drafts of all trees their leaves.
fn settle_parts<J: Job, T: Tree<J>, W: Wait>(
    rt: &W,
    memo: &Memo<MergeRecipe<J>>,
    parts: &mut Vec<PartSeat<J, T>>,
)
    requires { All (λ s. MaySettle T.view T.pins memo.now.locks s.tree s.caller) parts.old.items }
    ensures { EachPair (λ p s t. SettlesTree T.view T.pins T.most s.tree s.caller t.tree t.caller t.fresh.items) parts.old.items parts.new.items }
{
    'parts: for i in 0..parts.len() {
        let seat = &mut parts[i];
        seat.tree.settle(rt, memo, &mut seat.caller);
        seat.fresh.clear();
    }
}

// Drops the drafts of all trees, if they have one.
fn revert_parts<J: Job, T: Tree<J>, W: Wait>(
    rt: &W,
    memo: &Memo<MergeRecipe<J>>,
    parts: &mut Vec<PartSeat<J, T>>,
)
    requires { All (λ s. MayRevert T.pins memo.now.locks s.tree s.caller) parts.old.items }
    ensures { EachPair (λ p s t. RevertsTree T.view T.pins T.most s.tree s.caller t.tree t.caller t.fresh.items) parts.old.items parts.new.items }
{
    'parts: for i in 0..parts.len() {
        let seat = &mut parts[i];
        seat.tree.revert(rt, memo, &mut seat.caller);
        seat.fresh.clear();
    }
}
