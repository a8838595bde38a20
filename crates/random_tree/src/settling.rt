//! A settled draft replaces groups, whose pins are given up.
ghost use Rattle.std.specs.Prelude.{◌≡◌, ◌++◌, ◌-◌, ◌≤◌, length, take, map, All};
ghost use Rattle.pin_table.specs.Covers.{PinName, Covered, Balanced};
ghost use Rattle.tree_laws.specs.Pairs.{pair_digest};
ghost use Rattle.random_tree.specs.Levels.{Fits, HasRoom, IsUndrafted, now_of, taken, groups_pins, level_pins, levels_pins};

use crate::group::Group;
use crate::level::Level;
use crate::splicing::replace;
use job_laws::Job;
use pin_table::{Caller, Memo};
use std::sync::Wait;
use tree_laws::{MergeRecipe, let_all_go};

/// Makes the draft of each level the level, and gives up the groups that it replaces. It takes no memory, and skips
/// levels that do not change.
pub(crate) fn settle_all<J: Job, W: Wait>(
    rt: &W,
    memo: &Memo<MergeRecipe<J>>,
    caller: &mut Caller<MergeRecipe<J>>,
    levels: &mut [Level<J>],
)
    requires of { caller.old.locks ≡ memo.now.locks }
    requires covered { Covered caller.old (levels_pins (pair_digest J.encoded) levels.old) }
    requires fits { All Fits levels.old }
    requires room { All HasRoom levels.old }
    ensures taken { map now_of levels.new ≡ map taken levels.old }
    ensures undrafted { All IsUndrafted levels.new }
    ensures balanced { Balanced caller.old (levels_pins (pair_digest J.encoded) levels.old) caller.new (levels_pins (pair_digest J.encoded) levels.new) }
{
    match levels.split_first_mut() {
        None => return,
        Some((level, more)) => {
            settle(rt, memo, caller, level);
            settle_all(rt, memo, caller, more);
            return;
        }
    }
}

// The same for one level.
fn settle<J: Job, W: Wait>(
    rt: &W,
    memo: &Memo<MergeRecipe<J>>,
    caller: &mut Caller<MergeRecipe<J>>,
    level: &mut Level<J>,
)
    requires of { caller.old.locks ≡ memo.now.locks }
    requires covered { Covered caller.old (level_pins (pair_digest J.encoded) level.old) }
    requires fits { Fits level.old }
    requires room { HasRoom level.old }
    ensures taken { now_of level.new ≡ taken level.old }
    ensures undrafted { IsUndrafted level.new }
    ensures balanced { Balanced caller.old (level_pins (pair_digest J.encoded) level.old) caller.new (level_pins (pair_digest J.encoded) level.new) }
{
    let first = level.draft.first;
    let gone = level.draft.gone;
    level.draft.first = 0;
    level.draft.gone = 0;
    if gone == 0 && level.draft.fresh.is_empty() {
        return;
    }
    replace(&mut level.groups, first, gone, &mut level.draft.fresh);
    drop_last(rt, memo, caller, &mut level.groups, gone);
}

/// Gives up a number of the last groups.
pub(crate) fn drop_last<J: Job, W: Wait>(
    rt: &W,
    memo: &Memo<MergeRecipe<J>>,
    caller: &mut Caller<MergeRecipe<J>>,
    groups: &mut Vec<Group<J>>,
    count: usize,
)
    requires of { caller.old.locks ≡ memo.now.locks }
    requires covered { Covered caller.old (groups_pins (pair_digest J.encoded) groups.old.items) }
    requires within { count ≤ length groups.old.items }
    ensures items { groups.new.items ≡ take (length groups.old.items - count) groups.old.items }
    ensures balanced { Balanced caller.old (groups_pins (pair_digest J.encoded) groups.old.items) caller.new (groups_pins (pair_digest J.encoded) groups.new.items) }
{
    let left = groups.len() - count;
    'groups: while groups.len() > left {
        let Some(group) = groups.pop() else {
            unreachable!()
        };
        let Group {
            first: _,
            holds,
            ended: _,
        } = group;
        let_all_go(rt, memo, caller, holds);
    }
}
