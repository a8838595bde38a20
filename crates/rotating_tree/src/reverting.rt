//! A dropped draft gives its own pins back, and leaves the rest.
ghost use Rattle.std.specs.Prelude.{◌≡◌, ◌++◌, List};
ghost use Rattle.pin_table.specs.Covers.{PinName, Covered, Balanced};
ghost use Rattle.tree_laws.specs.Pairs.{pair_digest};
ghost use Rattle.rotating_tree.specs.Nodes.{IsMarked, undrafted, part_pins, draft_pins, node_pins};
ghost use Rattle.rotating_tree.specs.declared.draft.Draft.TheVariants.{Same};

use crate::draft::Draft;
use crate::node::{Node, stays};
use crate::part::let_part_go;
use job_laws::Job;
use pin_table::{Caller, Memo};
use std::sync::Wait;
use tree_laws::MergeRecipe;

/// Drops the draft of each node, and gives up what it has. It takes no memory, and walks only the nodes that do not
/// stay.
#[cycle(revert)]
pub(crate) fn revert<J: Job, W: Wait>(
    rt: &W,
    memo: &Memo<MergeRecipe<J>>,
    caller: &mut Caller<MergeRecipe<J>>,
    node: &mut Node<J>,
)
    requires of { caller.old.locks ≡ memo.now.locks }
    requires covered { Covered caller.old (node_pins (pair_digest J.encoded) node.old) }
    requires marked { IsMarked node.old }
    ensures undrafted { node.new ≡ undrafted node.old }
    ensures balanced { Balanced caller.old (node_pins (pair_digest J.encoded) node.old) caller.new (node_pins (pair_digest J.encoded) node.new) }
{
    if stays(node) {
        return;
    }
    match node {
        Node::Leaf(_, draft) => drop_draft(rt, memo, caller, draft),
        Node::Fork(left, right, _, draft) => { revert_fork(rt, memo, caller, left, right, draft) }
    }
}

// The same for a node with its halves.
#[cycle(revert)]
fn revert_fork<J: Job, W: Wait>(
    rt: &W,
    memo: &Memo<MergeRecipe<J>>,
    caller: &mut Caller<MergeRecipe<J>>,
    left: &mut Node<J>,
    right: &mut Node<J>,
    draft: &mut Draft<J>,
)
    requires of { caller.old.locks ≡ memo.now.locks }
    requires covered { Covered caller.old (node_pins (pair_digest J.encoded) left.old ++ (node_pins (pair_digest J.encoded) right.old ++ draft_pins (pair_digest J.encoded) draft.old)) }
    requires marked { IsMarked left.old × IsMarked right.old }
    ensures left { left.new ≡ undrafted left.old }
    ensures right { right.new ≡ undrafted right.old }
    ensures draft { draft.new ≡ Same }
    ensures balanced { Balanced caller.old (node_pins (pair_digest J.encoded) left.old ++ (node_pins (pair_digest J.encoded) right.old ++ draft_pins (pair_digest J.encoded) draft.old)) caller.new (node_pins (pair_digest J.encoded) left.new ++ (node_pins (pair_digest J.encoded) right.new ++ draft_pins (pair_digest J.encoded) draft.new)) }
{
    revert(rt, memo, caller, left);
    revert(rt, memo, caller, right);
    drop_draft(rt, memo, caller, draft);
}

// One node stays, and its draft is given up.
fn drop_draft<J: Job, W: Wait>(
    rt: &W,
    memo: &Memo<MergeRecipe<J>>,
    caller: &mut Caller<MergeRecipe<J>>,
    draft: &mut Draft<J>,
)
    requires of { caller.old.locks ≡ memo.now.locks }
    requires covered { Covered caller.old (draft_pins (pair_digest J.encoded) draft.old) }
    ensures draft { draft.new ≡ Same }
    ensures balanced { (ps : List PinName) → Balanced caller.old (draft_pins (pair_digest J.encoded) draft.old ++ ps) caller.new ps }
{
    match std::mem::replace(draft, Draft::Same) {
        Draft::New(part) => let_part_go(rt, memo, caller, part),
        Draft::Due => return,
        Draft::Same => return,
    }
}
