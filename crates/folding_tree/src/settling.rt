//! A settled draft replaces nodes, which are given up; the others stay at their places.
ghost use Rattle.std.specs.Prelude.{◌≡◌, ◌++◌, ◌-◌, ◌<◌, ◌≤◌, [], ℕ, All, map, length};
ghost use Rattle.std.specs.VecDeque.{deque_capacity};
ghost use Rattle.record_text.specs.Shifts.{put_at};
ghost use Rattle.pin_table.specs.Covers.{Covered};
ghost use Rattle.tree_laws.specs.Pairs.{pair_digest};
ghost use Rattle.folding_tree.specs.Levels.{IsFit, no_row, row_after, parts_pins};
ghost use Rattle.folding_tree.specs.Folding.{AreFit, HaveRoom, row_of, ahead_of, rows_of, rows_after, draft_pins, levels_pins, drafts_pins};
ghost use Rattle.tree_laws.specs.Trades.{Trades};

use crate::draft::Draft;
use crate::letting::{let_first_go, let_last_go, let_part_go};
use crate::level::Level;
use crate::part::Part;
use job_laws::Job;
use pin_table::{Caller, Memo};
use std::collections::VecDeque;
use std::sync::Wait;
use tree_laws::MergeRecipe;

/// Makes of each level what its draft says, and empties the levels without a draft. It takes no memory, and walks only
/// the nodes that leave and come.
pub(crate) fn settle<J: Job, W: Wait>(
    rt: &W,
    memo: &Memo<MergeRecipe<J>>,
    caller: &mut Caller<MergeRecipe<J>>,
    levels: &mut Vec<Level<J>>,
    drafts: &mut Vec<Draft<J>>,
)
    requires of { caller.old.locks ≡ memo.now.locks }
    requires covered { Covered caller.old (levels_pins (pair_digest J.encoded) levels.old.items ++ drafts_pins (pair_digest J.encoded) drafts.old.items) }
    requires count { length drafts.old.items ≤ length levels.old.items }
    requires fit { AreFit levels.old.items drafts.old.items }
    requires room { HaveRoom levels.old.items drafts.old.items }
    ensures none { drafts.new.items ≡ [] }
    ensures count { length levels.new.items ≡ length levels.old.items }
    ensures rows { (k : ℕ) → rows_of levels.new.items k ≡ rows_after levels.old.items drafts.old.items k }
    ensures trades { Trades caller.old (levels_pins (pair_digest J.encoded) levels.old.items ++ drafts_pins (pair_digest J.encoded) drafts.old.items) caller.new (levels_pins (pair_digest J.encoded) levels.new.items) }
{
    'above: for k in drafts.len()..levels.len() {
        clear(rt, memo, caller, &mut levels[k]);
    }
    'drafts: while let Some(draft) = drafts.pop() {
        let k = drafts.len();
        settle_level(rt, memo, caller, &mut levels[k], draft);
    }
}

// Gives up all nodes of a level.
fn clear<J: Job, W: Wait>(
    rt: &W,
    memo: &Memo<MergeRecipe<J>>,
    caller: &mut Caller<MergeRecipe<J>>,
    level: &mut Level<J>,
)
    requires of { caller.old.locks ≡ memo.now.locks }
    requires covered { Covered caller.old (parts_pins (pair_digest J.encoded) level.old.nodes.items) }
    ensures row { row_of level.new ≡ no_row }
    ensures trades { Trades caller.old (parts_pins (pair_digest J.encoded) level.old.nodes.items) caller.new [] }
{
    let_last_go(rt, memo, caller, &mut level.nodes, 0);
    level.low = 0;
}

// Makes of one level what its draft says.
fn settle_level<J: Job, W: Wait>(
    rt: &W,
    memo: &Memo<MergeRecipe<J>>,
    caller: &mut Caller<MergeRecipe<J>>,
    level: &mut Level<J>,
    draft: Draft<J>,
)
    requires of { caller.old.locks ≡ memo.now.locks }
    requires covered { Covered caller.old (parts_pins (pair_digest J.encoded) level.old.nodes.items ++ draft_pins (pair_digest J.encoded) draft) }
    requires fit { IsFit (row_of level.old) (ahead_of draft) }
    requires room { draft.high - draft.low ≤ deque_capacity level.old.nodes }
    ensures row { row_of level.new ≡ row_after (row_of level.old) (ahead_of draft) }
    ensures trades { Trades caller.old (parts_pins (pair_digest J.encoded) level.old.nodes.items ++ draft_pins (pair_digest J.encoded) draft) caller.new (parts_pins (pair_digest J.encoded) level.new.nodes.items) }
{
    let Draft {
        from,
        low,
        mid,
        high: _,
        places,
        changed,
        mut fresh,
    } = draft;
    let gone = from.saturating_sub(level.low);
    let left = level.nodes.len().saturating_sub(gone);
    let_first_go(rt, memo, caller, &mut level.nodes, left);
    let_last_go(rt, memo, caller, &mut level.nodes, mid - low);
    exchange(
        rt,
        memo,
        caller,
        &mut level.nodes,
        low,
        places.as_slice(),
        changed,
    );
    match level.nodes.append(&mut fresh) {
        Ok(()) => (),
        Err(_) => unreachable!(),
    }
    level.low = low;
}

// Puts the changed nodes at their places, where the first node has the place `low`, and gives up those before.
fn exchange<J: Job, W: Wait>(
    rt: &W,
    memo: &Memo<MergeRecipe<J>>,
    caller: &mut Caller<MergeRecipe<J>>,
    nodes: &mut VecDeque<Part<J>>,
    low: usize,
    places: &[usize],
    mut changed: VecDeque<Part<J>>,
)
    requires of { caller.old.locks ≡ memo.now.locks }
    requires covered { Covered caller.old (parts_pins (pair_digest J.encoded) nodes.old.items ++ parts_pins (pair_digest J.encoded) changed.items) }
    requires within { All (λ place. (low ≤ place) × (place - low < length nodes.old.items)) places.now }
    requires count { length changed.items ≡ length places.now }
    ensures nodes { nodes.new.items ≡ put_at (map (λ place. place - low) places.now) changed.items nodes.old.items }
    ensures room { deque_capacity nodes.new ≡ deque_capacity nodes.old }
    ensures trades { Trades caller.old (parts_pins (pair_digest J.encoded) nodes.old.items ++ parts_pins (pair_digest J.encoded) changed.items) caller.new (parts_pins (pair_digest J.encoded) nodes.new.items) }
{
    'places: for i in 0..places.len() {
        match changed.pop_front() {
            Some(part) => {
                let old = std::mem::replace(&mut nodes[places[i] - low], part);
                let_part_go(rt, memo, caller, old);
            }
            None => unreachable!(),
        }
    }
}
