//! The table of pairs, by one pass over a map.
ghost use Rattle.std.specs.Prelude.{◌≡◌, ℕ, List, ◌≤◌, ◌+◌, length, cond, IfOk, OnOk, Some};
ghost use Rattle.std.specs.Ordering.{eq_by_cmp};
ghost use Rattle.definitions.specs.Tables.{HasGoodValues, IsRising, key_cmp, table_of, value_at, joined_found};
ghost use Rattle.job_laws.specs.Counted.{RoseBy};
ghost use Rattle.sheets.specs.Groups.{shown, FoundAreKeys, IsGroupOf};

use indexmap::IndexMap;
use job_laws::{Emit, Job, Key, Meter};
use std::alloc::{AllocError, Global};

/// The table of the pairs: their values are joined key by key in their order, then the distinct keys are sorted.
pub(crate) fn grouped<J: Job>(
    alloc: Global,
    job: &J,
    pairs: &Emit<J::Val>,
    m: &mut J::Meter,
) -> Result<Vec<(Key, J::Val)>, AllocError>
    requires { HasGoodValues (J.good (J.setting job.now)) pairs.now }
    ensures ok { IfOk result (λ t. t.items ≡ table_of (J.joined (J.setting job.now)) pairs.now) }
    ensures saved { IfOk result (λ t. (J.Meter.counts m.new).joins + length t.items ≤ (J.Meter.counts m.old).joins + length pairs.now) }
    ensures counted { RoseBy 0 0 (length pairs.now) (J.Meter.counts m.old) (J.Meter.counts m.new) }
{
    let groups = joined_by_key(alloc, job, pairs, m)?;
    let entries = entries_of(alloc, groups)?;
    Ok(entries)
}

/// What the values of each key join to.
fn joined_by_key<'a, J: Job>(
    alloc: Global,
    job: &J,
    pairs: &'a Emit<J::Val>,
    m: &mut J::Meter,
) -> Result<IndexMap<&'a [u8], J::Val>, AllocError>
    requires { HasGoodValues (J.good (J.setting job.now)) pairs.now }
    ensures ok { IfOk result (λ t. IsGroupOf (J.joined (J.setting job.now)) pairs.now t.entries) }
    ensures keys { IfOk result (λ t. FoundAreKeys t.entries) }
    ensures saved { IfOk result (λ t. (J.Meter.counts m.new).joins + length t.entries ≤ (J.Meter.counts m.old).joins + length pairs.now) }
    ensures counted { RoseBy 0 0 (length pairs.now) (J.Meter.counts m.old) (J.Meter.counts m.new) }
{
    let mut groups: IndexMap<&'a [u8], J::Val> = IndexMap::new(alloc);
    'pairs: for i in 0..pairs.len() {
        let (key, val) = pairs.pair(i);
        match put_pair(alloc, job, key, val, &mut groups, m) {
            Ok(()) => (),
            Err(e) => return Err(e),
        }
    }
    Ok(groups)
}

/// Joins one more value to that of its key.
fn put_pair<'a, J: Job>(
    alloc: Global,
    job: &J,
    key: &'a [u8],
    val: &J::Val,
    groups: &mut IndexMap<&'a [u8], J::Val>,
    m: &mut J::Meter,
) -> Result<(), AllocError>
    requires held { (v : J.Val) → value_at (shown groups.old.entries) key.now ≡ Some v → J.good (J.setting job.now) v }
    requires good { J.good (J.setting job.now) val.now }
    ensures ok { OnOk result ((q : List ℕ) → value_at (shown groups.new.entries) q ≡ cond (eq_by_cmp key_cmp q key.now) (joined_found (J.joined (J.setting job.now)) (value_at (shown groups.old.entries) q) (Some val.now)) (value_at (shown groups.old.entries) q)) }
    ensures saved { OnOk result ((J.Meter.counts m.new).joins + length groups.new.entries ≤ (J.Meter.counts m.old).joins + length groups.old.entries + 1) }
    ensures counted { RoseBy 0 0 1 (J.Meter.counts m.old) (J.Meter.counts m.new) }
{
    match groups.get_mut(key) {
        Some(held) => {
            let joined = job.combine(alloc, held, val, m)?;
            *held = joined;
            Ok(())
        }
        None => {
            let val = J::copy(alloc, val)?;
            groups.insert(key, val)?;
            Ok(())
        }
    }
}

/// The entries of the groups in byte order of their keys, which are copied.
fn entries_of<'a, V: Drop>(
    alloc: Global,
    groups: IndexMap<&'a [u8], V>,
) -> Result<Vec<(Key, V)>, AllocError>
    requires { FoundAreKeys groups.entries }
    ensures rising { IfOk result (λ t. IsRising t.items) }
    ensures values { IfOk result (λ t. (q : List ℕ) → value_at t.items q ≡ value_at (shown groups.entry.entries) q) }
    ensures len { IfOk result (λ t. length t.items ≡ length groups.entry.entries) }
{
    let mut sorted = groups;
    sorted.sort_keys()?;
    let mut table = Vec::new(alloc);
    table.reserve(sorted.len())?;
    'keys: for (key, val) in sorted {
        let key = Key::of(alloc, key)?;
        table.push_reserved((key, val));
    }
    Ok(table)
}
