//! Merging two sheets of one setting.
ghost use Rattle.std.specs.Prelude.{◌≡◌, ◌≤◌, ◌+◌, IfOk, OnOk};
ghost use Rattle.definitions.specs.Tables.{IsRising, HasGoodValues, merged, merge_in_order, common_keys};
ghost use Rattle.job_laws.specs.Counted.{risen, one_join, RoseBy};
ghost use Rattle.sheets.specs.Sheets.{ties};

use crate::{Sheet, Table};
use job_laws::{Job, Key, Meter};
use std::alloc::{AllocError, Global};
use std::cmp::Ordering;

/// The union of two sheets by key, with the joined value if both have the key, `a`'s value on the left. It counts one
/// merge. Keys are shared; it is linear in the entries, and hashes the merged table.
pub fn merge_sheets<J: Job>(
    alloc: Global,
    job: &J,
    a: &Sheet<J>,
    b: &Sheet<J>,
    m: &mut J::Meter,
) -> Result<Sheet<J>, AllocError>
    requires left { a.now.setting ≡ J.setting job.now }
    requires right { b.now.setting ≡ J.setting job.now }
    ensures setting { IfOk result (λ s. s.setting ≡ J.setting job.now) }
    ensures entries { IfOk result (λ s. s.entries ≡ merged (J.joined (J.setting job.now)) a.now.entries b.now.entries) }

    // Whatever it returns, one merge was counted, and at most a join for each common key.
    ensures merges { (J.Meter.counts m.new).merges ≡ risen (J.Meter.counts m.old).merges }
    ensures counted { RoseBy 0 1 (common_keys a.now.entries b.now.entries) (J.Meter.counts m.old) (J.Meter.counts m.new) }
{
    m.merge();
    let entries = merge_entries(
        alloc,
        job,
        a.entries().as_slice(),
        b.entries().as_slice(),
        m,
    )?;
    Sheet::of(alloc, job.setting(), Table::of(entries))
}

fn copy_entry<J: Job>(alloc: Global, e: &(Key, J::Val)) -> Result<(Key, J::Val), AllocError>
    ensures { IfOk result (λ c. c ≡ e.now) }
{
    let key = e.0.share()?;
    let val = J::copy(alloc, &e.1)?;
    Ok((key, val))
}

fn join_entries<J: Job>(
    alloc: Global,
    job: &J,
    e: &(Key, J::Val),
    f: &(Key, J::Val),
    m: &mut J::Meter,
) -> Result<(Key, J::Val), AllocError>
    requires left { J.good (J.setting job.now) e.now.1 }
    requires right { J.good (J.setting job.now) f.now.1 }
    ensures ok { IfOk result (λ c. c ≡ (e.now.0, J.joined (J.setting job.now) e.now.1 f.now.1)) }
    ensures counted { J.Meter.counts m.new ≡ one_join (J.Meter.counts m.old) }
{
    let val = job.combine(alloc, &e.1, &f.1, m)?;
    let key = e.0.share()?;
    Ok((key, val))
}

/// Merges two rising lists of entries. Keys are shared and values copied; it is linear in the entries.
fn merge_entries<J: Job>(
    alloc: Global,
    job: &J,
    a: &[(Key, J::Val)],
    b: &[(Key, J::Val)],
    m: &mut J::Meter,
) -> Result<Vec<(Key, J::Val)>, AllocError>
    requires left { HasGoodValues (J.good (J.setting job.now)) a.now }
    requires right { HasGoodValues (J.good (J.setting job.now)) b.now }
    ensures ok { IfOk result (λ out. out.items ≡ merge_in_order (J.joined (J.setting job.now)) a.now b.now) }
    ensures counted { RoseBy 0 0 (ties a.now b.now) (J.Meter.counts m.old) (J.Meter.counts m.new) }
{
    let mut out = Vec::new(alloc);
    out.reserve(a.len().max(b.len()))?;
    let mut left = a;
    let mut right = b;
    'entries: loop {
        match (left, right) {
            ([], []) => return Ok(out),
            ([], [f, others @ ..]) => {
                out.push(copy_entry::<J>(alloc, f)?)?;
                right = others;
            }
            ([e, more @ ..], []) => {
                out.push(copy_entry::<J>(alloc, e)?)?;
                left = more;
            }
            ([e, more @ ..], [f, others @ ..]) => match e.0.compare(&f.0) {
                Ordering::Less => {
                    out.push(copy_entry::<J>(alloc, e)?)?;
                    left = more;
                }
                Ordering::Equal => {
                    out.push(join_entries(alloc, job, e, f, m)?)?;
                    left = more;
                    right = others;
                }
                Ordering::Greater => {
                    out.push(copy_entry::<J>(alloc, f)?)?;
                    right = others;
                }
            },
        }
    }
}
