//! How a tree gives up nodes that it no longer uses, so that the memo may drop them. None of these calls takes memory.
ghost use Rattle.std.specs.Prelude.{◌≡◌, List, ◌++◌};
ghost use Rattle.pin_table.specs.Covers.{PinName, Covered, Balanced};
ghost use Rattle.tree_laws.specs.Holds.{hold_pins, some_pins, all_pins};
ghost use Rattle.tree_laws.specs.Pairs.{pair_digest};

use crate::{Hold, MergeRecipe};
use job_laws::Job;
use pin_table::{Caller, Memo};
use std::sync::Wait;

/// Releases the hold's pin, or drops it if its lock is worn. It may block.
pub fn let_go<J: Job, W: Wait>(
    rt: &W,
    memo: &Memo<MergeRecipe<J>>,
    caller: &mut Caller<MergeRecipe<J>>,
    hold: Hold<J>,
)
    requires of { caller.old.locks ≡ memo.now.locks }
    requires covered { Covered caller.old (hold_pins (pair_digest J.encoded) hold) }
    ensures { (ps : List PinName) → Balanced caller.old (hold_pins (pair_digest J.encoded) hold ++ ps) caller.new ps }
{
    match hold {
        Hold::Pinned(pin) => {
            memo.give_up(rt, caller, pin);
            return;
        }
        Hold::Loose(_) => return,
    }
}

/// Gives up a hold, if there is one.
pub fn let_some_go<J: Job, W: Wait>(
    rt: &W,
    memo: &Memo<MergeRecipe<J>>,
    caller: &mut Caller<MergeRecipe<J>>,
    hold: Option<Hold<J>>,
)
    requires of { caller.old.locks ≡ memo.now.locks }
    requires covered { Covered caller.old (some_pins (pair_digest J.encoded) hold) }
    ensures { (ps : List PinName) → Balanced caller.old (some_pins (pair_digest J.encoded) hold ++ ps) caller.new ps }
{
    match hold {
        Some(hold) => {
            let_go(rt, memo, caller, hold);
            return;
        }
        None => return,
    }
}

/// Gives up each of the holds, the last one first.
pub fn let_all_go<J: Job, W: Wait>(
    rt: &W,
    memo: &Memo<MergeRecipe<J>>,
    caller: &mut Caller<MergeRecipe<J>>,
    mut holds: Vec<Hold<J>>,
)
    requires of { caller.old.locks ≡ memo.now.locks }
    requires covered { Covered caller.old (all_pins (pair_digest J.encoded) holds.items) }
    ensures { (ps : List PinName) → Balanced caller.old (all_pins (pair_digest J.encoded) holds.items ++ ps) caller.new ps }
{
    'holds: while let Some(hold) = holds.pop() {
        let_go(rt, memo, caller, hold);
    }
}
