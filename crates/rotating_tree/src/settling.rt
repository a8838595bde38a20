//! A settled draft replaces the nodes before it, whose pins are given up.
ghost use Rattle.std.specs.Prelude.{◌≡◌, ◌++◌};
ghost use Rattle.pin_table.specs.Covers.{Covered, Balanced};
ghost use Rattle.tree_laws.specs.Pairs.{pair_digest};
ghost use Rattle.rotating_tree.specs.Nodes.{IsMarked, next_by, taken, part_pins, draft_pins, node_pins};
ghost use Rattle.rotating_tree.specs.declared.draft.Draft.TheVariants.{Same};

use crate::draft::Draft;
use crate::node::{Node, stays};
use crate::part::{Part, let_part_go};
use job_laws::Job;
use pin_table::{Caller, Memo};
use std::sync::Wait;
use tree_laws::MergeRecipe;

/// Makes the draft of each node the node, and gives up what it replaces. It takes no memory, and walks only the nodes
/// that do not stay.
#[cycle(settle)]
pub(crate) fn settle<J: Job, W: Wait>(
    rt: &W,
    memo: &Memo<MergeRecipe<J>>,
    caller: &mut Caller<MergeRecipe<J>>,
    node: &mut Node<J>,
)
    requires of { caller.old.locks ≡ memo.now.locks }
    requires covered { Covered caller.old (node_pins (pair_digest J.encoded) node.old) }
    requires marked { IsMarked node.old }
    ensures taken { node.new ≡ taken node.old }
    ensures balanced { Balanced caller.old (node_pins (pair_digest J.encoded) node.old) caller.new (node_pins (pair_digest J.encoded) node.new) }
{
    if stays(node) {
        return;
    }
    match node {
        Node::Leaf(now, draft) => turn(rt, memo, caller, now, draft),
        Node::Fork(left, right, now, draft) => {
            settle_fork(rt, memo, caller, left, right, now, draft)
        }
    }
}

// The same for a node with its halves.
#[cycle(settle)]
fn settle_fork<J: Job, W: Wait>(
    rt: &W,
    memo: &Memo<MergeRecipe<J>>,
    caller: &mut Caller<MergeRecipe<J>>,
    left: &mut Node<J>,
    right: &mut Node<J>,
    now: &mut Part<J>,
    draft: &mut Draft<J>,
)
    requires of { caller.old.locks ≡ memo.now.locks }
    requires covered { Covered caller.old (node_pins (pair_digest J.encoded) left.old ++ (node_pins (pair_digest J.encoded) right.old ++ (part_pins (pair_digest J.encoded) now.old ++ draft_pins (pair_digest J.encoded) draft.old))) }
    requires marked { IsMarked left.old × IsMarked right.old }
    ensures left { left.new ≡ taken left.old }
    ensures right { right.new ≡ taken right.old }
    ensures now { now.new ≡ next_by now.old draft.old }
    ensures draft { draft.new ≡ Same }
    ensures balanced { Balanced caller.old (node_pins (pair_digest J.encoded) left.old ++ (node_pins (pair_digest J.encoded) right.old ++ (part_pins (pair_digest J.encoded) now.old ++ draft_pins (pair_digest J.encoded) draft.old))) caller.new (node_pins (pair_digest J.encoded) left.new ++ (node_pins (pair_digest J.encoded) right.new ++ (part_pins (pair_digest J.encoded) now.new ++ draft_pins (pair_digest J.encoded) draft.new))) }
{
    settle(rt, memo, caller, left);
    settle(rt, memo, caller, right);
    turn(rt, memo, caller, now, draft);
}

// One node becomes its draft, and what it was is given up.
fn turn<J: Job, W: Wait>(
    rt: &W,
    memo: &Memo<MergeRecipe<J>>,
    caller: &mut Caller<MergeRecipe<J>>,
    now: &mut Part<J>,
    draft: &mut Draft<J>,
)
    requires of { caller.old.locks ≡ memo.now.locks }
    requires covered { Covered caller.old (part_pins (pair_digest J.encoded) now.old ++ draft_pins (pair_digest J.encoded) draft.old) }
    ensures now { now.new ≡ next_by now.old draft.old }
    ensures draft { draft.new ≡ Same }
    ensures balanced { Balanced caller.old (part_pins (pair_digest J.encoded) now.old ++ draft_pins (pair_digest J.encoded) draft.old) caller.new (part_pins (pair_digest J.encoded) now.new ++ draft_pins (pair_digest J.encoded) draft.new) }
{
    match std::mem::replace(draft, Draft::Same) {
        Draft::New(part) => {
            let old = std::mem::replace(now, part);
            let_part_go(rt, memo, caller, old);
        }
        Draft::Due => return,
        Draft::Same => return,
    }
}
