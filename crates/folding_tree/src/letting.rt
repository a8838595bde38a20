//! How nodes are given up, at both ends of a level, and of a draft as a whole. None of these calls takes memory.
ghost use Rattle.std.specs.Prelude.{◌≡◌, ◌++◌, ◌-◌, [], take, drop, length, List};
ghost use Rattle.std.specs.VecDeque.{deque_capacity};
ghost use Rattle.pin_table.specs.Covers.{PinName, Covered, Balanced};
ghost use Rattle.tree_laws.specs.Pairs.{pair_digest};
ghost use Rattle.folding_tree.specs.Levels.{part_pins, parts_pins};
ghost use Rattle.folding_tree.specs.Folding.{draft_pins, drafts_pins};
ghost use Rattle.tree_laws.specs.Trades.{Trades};

use crate::draft::Draft;
use crate::part::Part;
use job_laws::Job;
use pin_table::{Caller, Memo};
use std::collections::VecDeque;
use std::sync::Wait;
use tree_laws::{MergeRecipe, let_go};

/// Gives up the hold of a part, if it has one.
pub(crate) fn let_part_go<J: Job, W: Wait>(
    rt: &W,
    memo: &Memo<MergeRecipe<J>>,
    caller: &mut Caller<MergeRecipe<J>>,
    part: Part<J>,
)
    requires of { caller.old.locks ≡ memo.now.locks }
    requires covered { Covered caller.old (part_pins (pair_digest J.encoded) part) }
    ensures { (ps : List PinName) → Balanced caller.old (part_pins (pair_digest J.encoded) part ++ ps) caller.new ps }
{
    match part {
        Part::Merged(hold) => let_go(rt, memo, caller, hold),
        Part::Shared(_) => return,
    }
}

/// Gives up the first parts until `left` are left.
pub(crate) fn let_first_go<J: Job, W: Wait>(
    rt: &W,
    memo: &Memo<MergeRecipe<J>>,
    caller: &mut Caller<MergeRecipe<J>>,
    parts: &mut VecDeque<Part<J>>,
    left: usize,
)
    requires of { caller.old.locks ≡ memo.now.locks }
    requires covered { Covered caller.old (parts_pins (pair_digest J.encoded) parts.old.items) }
    ensures rest { parts.new.items ≡ drop (length parts.old.items - left) parts.old.items }
    ensures room { deque_capacity parts.new ≡ deque_capacity parts.old }
    ensures trades { Trades caller.old (parts_pins (pair_digest J.encoded) parts.old.items) caller.new (parts_pins (pair_digest J.encoded) parts.new.items) }
{
    'first: while parts.len() > left {
        match parts.pop_front() {
            Some(part) => let_part_go(rt, memo, caller, part),
            None => return,
        }
    }
}

/// Gives up all but the first parts, the last one first.
pub(crate) fn let_last_go<J: Job, W: Wait>(
    rt: &W,
    memo: &Memo<MergeRecipe<J>>,
    caller: &mut Caller<MergeRecipe<J>>,
    parts: &mut VecDeque<Part<J>>,
    kept: usize,
)
    requires of { caller.old.locks ≡ memo.now.locks }
    requires covered { Covered caller.old (parts_pins (pair_digest J.encoded) parts.old.items) }
    ensures rest { parts.new.items ≡ take kept parts.old.items }
    ensures room { deque_capacity parts.new ≡ deque_capacity parts.old }
    ensures trades { Trades caller.old (parts_pins (pair_digest J.encoded) parts.old.items) caller.new (parts_pins (pair_digest J.encoded) parts.new.items) }
{
    'last: while parts.len() > kept {
        match parts.pop_back() {
            Some(part) => let_part_go(rt, memo, caller, part),
            None => return,
        }
    }
}

/// Gives up all parts of a draft.
pub(crate) fn let_draft_go<J: Job, W: Wait>(
    rt: &W,
    memo: &Memo<MergeRecipe<J>>,
    caller: &mut Caller<MergeRecipe<J>>,
    draft: Draft<J>,
)
    requires of { caller.old.locks ≡ memo.now.locks }
    requires covered { Covered caller.old (draft_pins (pair_digest J.encoded) draft) }
    ensures { Trades caller.old (draft_pins (pair_digest J.encoded) draft) caller.new [] }
{
    let Draft {
        from: _,
        low: _,
        mid: _,
        high: _,
        places: _,
        mut changed,
        mut fresh,
    } = draft;
    let_last_go(rt, memo, caller, &mut changed, 0);
    let_last_go(rt, memo, caller, &mut fresh, 0);
}

/// Gives up all drafts, the last one first.
pub(crate) fn let_drafts_go<J: Job, W: Wait>(
    rt: &W,
    memo: &Memo<MergeRecipe<J>>,
    caller: &mut Caller<MergeRecipe<J>>,
    drafts: &mut Vec<Draft<J>>,
)
    requires of { caller.old.locks ≡ memo.now.locks }
    requires covered { Covered caller.old (drafts_pins (pair_digest J.encoded) drafts.old.items) }
    ensures none { drafts.new.items ≡ [] }
    ensures trades { Trades caller.old (drafts_pins (pair_digest J.encoded) drafts.old.items) caller.new [] }
{
    'drafts: while let Some(draft) = drafts.pop() {
        let_draft_go(rt, memo, caller, draft);
    }
}
