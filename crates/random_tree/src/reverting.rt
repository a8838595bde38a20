//! A dropped draft gives up the pins that only it had.
ghost use Rattle.std.specs.Prelude.{◌≡◌, map, All};
ghost use Rattle.pin_table.specs.Covers.{Covered, Balanced};
ghost use Rattle.tree_laws.specs.Pairs.{pair_digest};
ghost use Rattle.random_tree.specs.Levels.{IsUndrafted, now_of, level_pins, levels_pins};

use crate::level::Level;
use crate::settling::drop_last;
use job_laws::Job;
use pin_table::{Caller, Memo};
use std::sync::Wait;
use tree_laws::MergeRecipe;

/// Drops the draft of each level, and gives up the groups that it brought. It takes no memory.
pub(crate) fn revert_all<J: Job, W: Wait>(
    rt: &W,
    memo: &Memo<MergeRecipe<J>>,
    caller: &mut Caller<MergeRecipe<J>>,
    levels: &mut [Level<J>],
)
    requires of { caller.old.locks ≡ memo.now.locks }
    requires covered { Covered caller.old (levels_pins (pair_digest J.encoded) levels.old) }
    ensures same { map now_of levels.new ≡ map now_of levels.old }
    ensures undrafted { All IsUndrafted levels.new }
    ensures balanced { Balanced caller.old (levels_pins (pair_digest J.encoded) levels.old) caller.new (levels_pins (pair_digest J.encoded) levels.new) }
{
    match levels.split_first_mut() {
        None => return,
        Some((level, more)) => {
            revert(rt, memo, caller, level);
            revert_all(rt, memo, caller, more);
            return;
        }
    }
}

// The same for one level.
fn revert<J: Job, W: Wait>(
    rt: &W,
    memo: &Memo<MergeRecipe<J>>,
    caller: &mut Caller<MergeRecipe<J>>,
    level: &mut Level<J>,
)
    requires of { caller.old.locks ≡ memo.now.locks }
    requires covered { Covered caller.old (level_pins (pair_digest J.encoded) level.old) }
    ensures same { now_of level.new ≡ now_of level.old }
    ensures undrafted { IsUndrafted level.new }
    ensures balanced { Balanced caller.old (level_pins (pair_digest J.encoded) level.old) caller.new (level_pins (pair_digest J.encoded) level.new) }
{
    level.draft.first = 0;
    level.draft.gone = 0;
    let count = level.draft.fresh.len();
    drop_last(rt, memo, caller, &mut level.draft.fresh, count);
}
