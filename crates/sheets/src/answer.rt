//! The lines of several sheets in one order of keys.
ghost use Rattle.std.specs.Prelude.{◌≡◌, ◌++◌, [], length, map, All, OnOk, OnErr, IfOk, IfSome, None};
ghost use Rattle.definitions.specs.Answer.{lines_of};
ghost use Rattle.definitions.specs.Outside.{GainsPrefix};
ghost use Rattle.definitions.specs.Tables.{HasGoodValues, IsRising};
ghost use Rattle.job_laws.specs.Meanings.{meaning_of};
ghost use Rattle.sheets.specs.United.{Apart, BestIs, IsLeast, tables_of, united};

use crate::Sheet;
use crate::rest::Rest;
use job_laws::{Job, Key};
use std::alloc::{AllocError, Global};
use std::cmp::Ordering;

/// Appends the lines of all entries of the roots, in byte order of their keys, to `out`, and returns the number of
/// entries; out of memory, a prefix of the lines. It is one pass over the entries, with a comparison for each root.
pub fn answer_of<J: Job>(
    alloc: Global,
    job: &J,
    roots: &[Sheet<J>],
    out: &mut Vec<u8>,
) -> Result<u64, AllocError>
    requires settings { All (λ s. s.setting ≡ J.setting job.now) roots.now }
    requires apart { Apart (tables_of roots.now) }
    ensures ok { OnOk result (out.new.items ≡ out.old.items ++ lines_of (meaning_of J.Job job.now).text (united (tables_of roots.now))) }
    ensures count { IfOk result (λ n. n ≡ length (united (tables_of roots.now))) }
    ensures err { OnErr result (GainsPrefix (lines_of (meaning_of J.Job job.now).text (united (tables_of roots.now))) out.old.items out.new.items) }
{
    let mut rests = match rests_of(alloc, job, roots) {
        Ok(rests) => rests,
        Err(e) => return Err(e),
    };
    let mut count = 0u64;
    'entries: loop {
        let Some(i) = least(rests.as_slice()) else {
            return Ok(count);
        };
        let Some(e) = rests[i].first() else {
            return Ok(count);
        };
        match job.line(alloc, &e.0, &e.1, out) {
            Ok(()) => (),
            Err(e) => return Err(e),
        }
        match count.checked_add(1) {
            Some(more) => count = more,
            None => return Err(AllocError),
        }
        rests[i].take_first();
    }
}

/// All entries of each root.
fn rests_of<'a, J: Job>(
    alloc: Global,
    job: &J,
    roots: &'a [Sheet<J>],
) -> Result<Vec<Rest<'a, J>>, AllocError>
    requires { All (λ s. s.setting ≡ J.setting job.now) roots.now }
    ensures tables { IfOk result (λ rests. rests.items ≡ tables_of roots.now) }
    ensures rising { IfOk result (λ rests. All IsRising rests.items) }
    ensures good { IfOk result (λ rests. All (HasGoodValues (J.good (J.setting job.now))) rests.items) }
{
    let mut rests = Vec::new(alloc);
    'roots: for i in 0..roots.len() {
        rests.push(Rest::of(&roots[i]))?;
    }
    Ok(rests)
}

/// The place of the table whose first entry has the least key; `None` if no table has an entry.
fn least<'a, J: Job>(rests: &[Rest<'a, J>]) -> Option<usize>
    ensures none { result ≡ None → All (λ t. t ≡ []) rests.now }
    ensures some { IfSome result (IsLeast rests.now) }
{
    let mut best: Option<(usize, &Key)> = None;
    'rests: for i in 0..rests.len() {
        best = match (best, rests[i].first()) {
            (best, None) => best,
            (None, Some(e)) => Some((i, &e.0)),
            (Some(b), Some(e)) => match e.0.compare(b.1) {
                Ordering::Less => Some((i, &e.0)),
                _ => Some(b),
            },
        };
    }
    match best {
        Some((i, _)) => Some(i),
        None => None,
    }
}
