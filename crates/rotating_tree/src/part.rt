//! The part of a node. A node with one void half passes the other half's sheet up, so it has no merge.
ghost use Rattle.std.specs.Prelude.{◌≡◌, List, ◌++◌, option_copied};
ghost use Rattle.pin_table.specs.Covers.{PinName, Covered, Balanced};
ghost use Rattle.tree_laws.specs.Pairs.{pair_digest};
ghost use Rattle.rotating_tree.specs.Nodes.{part_sheet, part_pins};

use job_laws::Job;
use pin_table::{Caller, Memo};
use sheets::Sheet;
use std::sync::Wait;
use tree_laws::{Hold, MergeRecipe, let_go};

/// What a node has over its leaves.
#[derive(Drop)]
pub(crate) enum Part<J: Job> {
    /// No leaf.
    Void,
    /// The sheet of a leaf, or of the only half that is not void.
    Shared(Sheet<J>),
    /// The merge of both halves.
    Merged(Hold<J>),
}

impl<J: Job> Part<J> {
    /// The sheet of the leaves below, if there are some.
    pub(crate) fn sheet(&self) -> Option<&Sheet<J>>
        ensures { option_copied result ≡ part_sheet self.now }
    {
        match self {
            Part::Void => None,
            Part::Shared(sheet) => Some(sheet),
            Part::Merged(hold) => Some(hold.sheet()),
        }
    }
}

/// Gives up the hold of a part, if it has one.
pub(crate) fn let_part_go<J: Job, W: Wait>(
    rt: &W,
    memo: &Memo<MergeRecipe<J>>,
    caller: &mut Caller<MergeRecipe<J>>,
    part: Part<J>,
)
    requires of { caller.old.locks ≡ memo.now.locks }
    requires covered { Covered caller.old (part_pins (pair_digest J.encoded) part) }
    ensures { (ps : List PinName) → Balanced caller.old (part_pins (pair_digest J.encoded) part ++ ps) caller.new ps }
{
    match part {
        Part::Merged(hold) => let_go(rt, memo, caller, hold),
        Part::Shared(_) => return,
        Part::Void => return,
    }
}
