//! A group is merged from left to right, member by member, until one ends it.
ghost use Rattle.std.specs.Prelude.{◌≡◌, true, false, [], map, drop, OnOk, OnErr, slice_get, Some};
ghost use Rattle.pin_table.specs.OwnEvents.{Met};
ghost use Rattle.tree_laws.specs.Pairs.{pair_digest};
ghost use Rattle.tree_laws.specs.Holds.{all_pins};
ghost use Rattle.random_tree.specs.Groups.{ends};
ghost use Rattle.random_tree.specs.Inputs.{is_marked};
ghost use Rattle.random_tree.specs.Levels.{Fits, AreSet, taken, group_table, group_sheet, group_loose};
ghost use Rattle.random_tree.specs.Steps.{IsGrown, MergesSomeOf};
ghost use Rattle.tree_laws.specs.Trades.{Gets};

use crate::group::Group;
use crate::level::Level;
use job_laws::{Job, Meter};
use pin_table::{Caller, Memo};
use sheets::Sheet;
use std::alloc::{AllocError, Global};
use std::sync::Wait;
use tree_laws::{MergeRecipe, merge_through};

// The most members of a group.
const MOST: usize = 8;

// A group of two or more ends at a member whose digest begins with this byte or a greater one.
const MARK: u8 = 128;

/// Merges the members that follow the first one into its group, up to the one that ends it, or the last one. Out of
/// memory, the group has the merges made before.
pub(crate) fn grow<J: Job, W: Wait>(
    alloc: Global,
    rt: &W,
    memo: &Memo<MergeRecipe<J>>,
    caller: &mut Caller<MergeRecipe<J>>,
    job: &J,
    run: u64,
    below: &Level<J>,
    from: usize,
    group: &mut Group<J>,
    m: &mut J::Meter,
) -> Result<(), AllocError>
    requires of { caller.old.locks ≡ memo.now.locks }
    requires fits { Fits below.now }
    requires set { AreSet (J.setting job.now) (taken below.now) }
    requires first { slice_get (map group_sheet (taken below.now)) from ≡ Some group.old.first }
    requires alone { group.old.holds.items ≡ [] }
    requires opened { group.old.ended ≡ false }
    ensures grown { OnOk result (IsGrown J.joined (J.setting job.now) J.encoded (drop from (map group_table (taken below.now))) caller.old caller.new (J.Meter.counts m.old) (J.Meter.counts m.new) group.new) }
    ensures some { OnErr result (MergesSomeOf J.joined (J.setting job.now) J.encoded (drop from (map group_table (taken below.now))) caller.old caller.new (J.Meter.counts m.old) (J.Meter.counts m.new)) }
    ensures gets { Gets caller.old (all_pins (pair_digest J.encoded) group.new.holds.items) caller.new }
    ensures loose { group_loose group.new ≡ true → Met caller.old caller.new }
{
    'members: while group.len() < below.len() - from {
        let next = below.member(from + group.len());
        match group.holds.reserve(1) {
            Ok(()) => (),
            Err(e) => return Err(e),
        }
        match merge_through(alloc, rt, memo, caller, job, run, group.sheet(), next, m) {
            Ok(hold) => group.holds.push_reserved(hold),
            Err(e) => return Err(e),
        }
        if ends_at(group.len(), next) {
            group.ended = true;
            return Ok(());
        }
    }
    Ok(())
}

// Whether a group ends at this member, which is its `count`-th.
fn ends_at<J: Job>(count: usize, member: &Sheet<J>) -> bool
    ensures { result ≡ ends (is_marked J.encoded) count member.now.entries }
{
    count >= 2 && (member.digest()[0] >= MARK || count >= MOST)
}
