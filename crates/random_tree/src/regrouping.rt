//! A level follows the one below it: its groups before and after the change there stay.
ghost use Rattle.std.specs.Prelude.{◌≡◌, ◌≤◌, ◌<◌, ◌^◌, [], length, map, OnOk, OnErr};
ghost use Rattle.tree_laws.specs.Pairs.{pair_digest};
ghost use Rattle.random_tree.specs.Inputs.{is_marked};
ghost use Rattle.random_tree.specs.Groups.{groups_of};
ghost use Rattle.random_tree.specs.Levels.{Fits, HasRoom, IsUndrafted, AreSet, AreOver, now_of, fresh_of, taken, group_table};
ghost use Rattle.random_tree.specs.Steps.{GainsGroups, Regroups, RegroupsSome};

use crate::boundary::kept_before;
use crate::filling::fill;
use crate::level::Level;
use job_laws::{Job, Meter};
use pin_table::{Caller, Memo};
use std::alloc::{AllocError, Global};
use std::sync::Wait;
use tree_laws::MergeRecipe;

/// Drafts the level above one that has its draft. Out of memory, the merges made before are in the draft.
pub(crate) fn regroup<J: Job, W: Wait>(
    alloc: Global,
    rt: &W,
    memo: &Memo<MergeRecipe<J>>,
    caller: &mut Caller<MergeRecipe<J>>,
    job: &J,
    run: u64,
    below: &Level<J>,
    above: &mut Level<J>,
    m: &mut J::Meter,
) -> Result<(), AllocError>
    requires of { caller.old.locks ≡ memo.now.locks }
    requires fits { Fits below.now }
    requires set { AreSet (J.setting job.now) (taken below.now) }
    requires undrafted { IsUndrafted above.old }
    requires over { AreOver J.joined (J.setting job.now) J.encoded (groups_of (is_marked J.encoded) (map group_table (now_of below.now))) (now_of above.old) }
    ensures same { now_of above.new ≡ now_of above.old }
    ensures fits { Fits above.new }
    ensures room { OnOk result (HasRoom above.new) }
    ensures ok { OnOk result (Regroups J.joined (J.setting job.now) J.encoded (map group_table (taken below.now)) caller.old caller.new (J.Meter.counts m.old) (J.Meter.counts m.new) (taken above.new)) }
    ensures some { OnErr result (RegroupsSome J.joined (J.setting job.now) J.encoded (map group_table (taken below.now)) caller.old caller.new (J.Meter.counts m.old) (J.Meter.counts m.new)) }
    ensures gains { GainsGroups (pair_digest J.encoded) caller.old caller.new [] (fresh_of above.new) }
{
    if below.stays() {
        return Ok(());
    }
    if below.len() < 2 {
        above.draft.gone = above.groups.len();
        return Ok(());
    }
    let kept = kept_before(above.groups.as_slice(), below.draft.first);
    above.draft.first = kept.groups;
    match fill(
        alloc,
        rt,
        memo,
        caller,
        job,
        run,
        below,
        above.groups.as_slice(),
        kept,
        &mut above.draft.fresh,
        m,
    ) {
        Ok(until) => above.draft.gone = until - kept.groups,
        Err(e) => return Err(e),
    }
    match above.groups.reserve(above.draft.fresh.len()) {
        Ok(()) => Ok(()),
        Err(e) => Err(e),
    }
}
