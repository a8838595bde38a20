//! A change of the leaves is carried up through all levels.
ghost use Rattle.std.specs.Prelude.{◌≡◌, ◌≤◌, ◌-◌, ◌<◌, ◌^◌, ◌++◌, [], length, map, All, OnOk, OnErr, vec_len};
ghost use Rattle.tree_laws.specs.Pairs.{pair_digest};
ghost use Rattle.random_tree.specs.Inputs.{is_marked};
ghost use Rattle.random_tree.specs.Groups.{groups_of};
ghost use Rattle.random_tree.specs.Levels.{Fits, HasRoom, IsUndrafted, AreSet, AreLevels, now_of, taken, group_table};
ghost use Rattle.random_tree.specs.Steps.{AddsLevels, GainsLevels, Raises, RaisesSome};

use crate::level::Level;
use crate::regrouping::regroup;
use job_laws::{Job, Meter};
use pin_table::{Caller, Memo};
use std::alloc::{AllocError, Global};
use std::sync::Wait;
use tree_laws::MergeRecipe;

/// Drafts the levels above one that has its draft, from below.
pub(crate) fn raise<J: Job, W: Wait>(
    alloc: Global,
    rt: &W,
    memo: &Memo<MergeRecipe<J>>,
    caller: &mut Caller<MergeRecipe<J>>,
    job: &J,
    run: u64,
    below: &Level<J>,
    levels: &mut [Level<J>],
    m: &mut J::Meter,
) -> Result<(), AllocError>
    requires of { caller.old.locks ≡ memo.now.locks }
    requires fits { Fits below.now }
    requires set { AreSet (J.setting job.now) (taken below.now) }
    requires undrafted { All IsUndrafted levels.old }
    requires levels { AreLevels J.joined (J.setting job.now) J.encoded (groups_of (is_marked J.encoded) (map group_table (now_of below.now))) (map now_of levels.old) }
    requires enough { length (taken below.now) ≤ 2 ^ length levels.old }
    ensures same { map now_of levels.new ≡ map now_of levels.old }
    ensures fits { All Fits levels.new }
    ensures room { OnOk result (All HasRoom levels.new) }
    ensures ok { OnOk result (Raises J.joined (J.setting job.now) J.encoded (map group_table (taken below.now)) caller.old caller.new (J.Meter.counts m.old) (J.Meter.counts m.new) (map taken levels.new)) }
    ensures some { OnErr result (RaisesSome J.joined (J.setting job.now) J.encoded (map group_table (taken below.now)) (length levels.old) caller.old caller.new (J.Meter.counts m.old) (J.Meter.counts m.new)) }
    ensures gains { GainsLevels (pair_digest J.encoded) caller.old caller.new levels.new }
{
    match levels.split_first_mut() {
        None => return Ok(()),
        Some((above, more)) => {
            match regroup(alloc, rt, memo, caller, job, run, below, above, m) {
                Ok(()) => (),
                Err(e) => return Err(e),
            }
            match raise(alloc, rt, memo, caller, job, run, above, more, m) {
                Ok(()) => return Ok(()),
                Err(e) => return Err(e),
            }
        }
    }
}

/// Adds levels without groups above the others, as many as a tree over `leaves` leaves may need.
pub(crate) fn add_levels<J: Job>(
    alloc: Global,
    levels: &mut Vec<Level<J>>,
    leaves: usize,
) -> Result<(), AllocError>
    requires { 0 < vec_len levels.old }
    ensures adds { AddsLevels levels.old.items levels.new.items }
    ensures enough { OnOk result (leaves ≤ 2 ^ (vec_len levels.new - 1)) }
{
    let needed = levels_over(leaves) + 1;
    'levels: while levels.len() < needed {
        levels.push(Level::new(alloc))?;
    }
    Ok(())
}

// How often a number of leaves must be halved, rounding up, until at most one is left.
fn levels_over(leaves: usize) -> usize
    ensures enough { leaves ≤ 2 ^ result }
    ensures small { result ≤ leaves - 1 }
{
    let mut left = leaves;
    let mut count = 0;
    'halves: while left > 1 {
        left -= left / 2;
        count += 1;
    }
    count
}
