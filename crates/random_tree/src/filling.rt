//! Groups over changed members are made again, up to an old boundary from which the old groups stay.
ghost use Rattle.std.specs.Prelude.{◌≡◌, ◌≤◌, ◌<◌, ◌^◌, [], length, map, drop, OnErr, IfOk, IsTrue};
ghost use Rattle.tree_laws.specs.Pairs.{pair_digest};
ghost use Rattle.random_tree.specs.Levels.{Fits, AreSet, IsBoundary, now_of, taken, group_table, span};
ghost use Rattle.random_tree.specs.Steps.{GainsGroups, AddsGroup, Fills, FillsSome, MergesSomeOf};

use crate::boundary::{Boundary, reach};
use crate::group::Group;
use crate::growing::grow;
use crate::level::Level;
use job_laws::{Job, Meter};
use pin_table::{Caller, Memo};
use std::alloc::{AllocError, Global};
use std::sync::Wait;
use tree_laws::MergeRecipe;

/// Makes groups over the members from a boundary on, and returns how many of the old groups leave before those that
/// stay. Out of memory, the groups and merges made before are among the fresh ones.
pub(crate) fn fill<J: Job, W: Wait>(
    alloc: Global,
    rt: &W,
    memo: &Memo<MergeRecipe<J>>,
    caller: &mut Caller<MergeRecipe<J>>,
    job: &J,
    run: u64,
    below: &Level<J>,
    old: &[Group<J>],
    kept: Boundary,
    fresh: &mut Vec<Group<J>>,
    m: &mut J::Meter,
) -> Result<usize, AllocError>
    requires of { caller.old.locks ≡ memo.now.locks }
    requires fits { Fits below.now }
    requires set { AreSet (J.setting job.now) (taken below.now) }
    requires kept { IsBoundary old.now kept }
    requires within { kept.members ≤ length (taken below.now) }
    requires span { span old.now < 2 ^ 63 }
    requires none { fresh.old.items ≡ [] }
    ensures fills { IfOk result (λ until. Fills J.joined (J.setting job.now) J.encoded below.now old.now kept until caller.old caller.new (J.Meter.counts m.old) (J.Meter.counts m.new) fresh.new.items) }
    ensures some { OnErr result (FillsSome J.joined (J.setting job.now) J.encoded (map group_table (taken below.now)) kept.members caller.old caller.new (J.Meter.counts m.old) (J.Meter.counts m.new)) }
    ensures gains { GainsGroups (pair_digest J.encoded) caller.old caller.new fresh.old.items fresh.new.items }
{
    let mut at = kept.members;
    let mut met = kept;
    'groups: while at < below.len() {
        let (next, stays) = meet(below, old, met, at);
        if stays {
            return Ok(next.groups);
        }
        met = next;
        match add_group(alloc, rt, memo, caller, job, run, below, at, fresh, m) {
            Ok(count) => at += count,
            Err(e) => return Err(e),
        }
    }
    Ok(old.len())
}

// The first old boundary, from this one on, that may be at the member `at`, and whether the old groups stay after it.
fn meet<J: Job>(below: &Level<J>, old: &[Group<J>], from: Boundary, at: usize) -> (Boundary, bool)
    requires fits { Fits below.now }
    requires at { at < length (taken below.now) }
    requires span { span old.now < 2 ^ 63 }
    requires from { IsBoundary old.now from }
    ensures boundary { IsBoundary old.now result.0 }
    ensures later { from.groups ≤ result.0.groups }
    ensures stays { IsTrue result.1 → (result.0.groups < length old.now) × (drop at (taken below.now) ≡ drop result.0.members (now_of below.now)) }
{
    match below.place_before(at) {
        None => (from, false),
        Some(place) => {
            let met = reach(old, from, place);
            (met, met.members == place && met.groups < old.len())
        }
    }
}

// Makes the group that begins at this member, and returns the number of its members.
fn add_group<J: Job, W: Wait>(
    alloc: Global,
    rt: &W,
    memo: &Memo<MergeRecipe<J>>,
    caller: &mut Caller<MergeRecipe<J>>,
    job: &J,
    run: u64,
    below: &Level<J>,
    from: usize,
    fresh: &mut Vec<Group<J>>,
    m: &mut J::Meter,
) -> Result<usize, AllocError>
    requires of { caller.old.locks ≡ memo.now.locks }
    requires fits { Fits below.now }
    requires set { AreSet (J.setting job.now) (taken below.now) }
    requires from { from < length (taken below.now) }
    ensures ok { IfOk result (λ count. AddsGroup J.joined (J.setting job.now) J.encoded (drop from (map group_table (taken below.now))) caller.old caller.new (J.Meter.counts m.old) (J.Meter.counts m.new) count fresh.old.items fresh.new.items) }
    ensures some { OnErr result (MergesSomeOf J.joined (J.setting job.now) J.encoded (drop from (map group_table (taken below.now))) caller.old caller.new (J.Meter.counts m.old) (J.Meter.counts m.new)) }
    ensures gains { GainsGroups (pair_digest J.encoded) caller.old caller.new fresh.old.items fresh.new.items }
{
    match fresh.reserve(1) {
        Ok(()) => (),
        Err(e) => return Err(e),
    }
    let first = match below.member(from).share() {
        Ok(first) => first,
        Err(e) => return Err(e),
    };
    let mut group = Group {
        first,
        holds: Vec::new(alloc),
        ended: false,
    };
    let grown = grow(
        alloc, rt, memo, caller, job, run, below, from, &mut group, m,
    );
    let count = group.len();
    fresh.push_reserved(group);
    match grown {
        Ok(()) => Ok(count),
        Err(e) => Err(e),
    }
}
