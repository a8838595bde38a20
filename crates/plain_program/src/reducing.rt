//! What the pairs of one key reduce to.
ghost use Rattle.std.specs.Prelude.{◌≡◌, Some, IfOk, IfSome};
ghost use Rattle.std.specs.Ordering.{eq_by_cmp};
ghost use Rattle.definitions.specs.Tables.{HasGoodValues, joined_found, key_cmp, reduced};

use job_laws::{Emit, Job, Key};
use std::alloc::{AllocError, Global};
use std::cmp::Ordering;

/// The values of a key, joined from left to right; `None` if the key has no value.
pub(crate) fn plain_reduced<J: Job>(
    alloc: Global,
    job: &J,
    pairs: &Emit<J::Val>,
    key: &Key,
    m: &mut J::Meter,
) -> Result<Option<J::Val>, AllocError>
    requires { HasGoodValues (J.good (J.setting job.now)) pairs.now }
    ensures ok { IfOk result (λ value. value ≡ reduced (J.joined (J.setting job.now)) pairs.now key.now) }
    ensures good { IfOk result (λ value. IfSome value (J.good (J.setting job.now))) }
{
    let mut value = None;
    'pairs: for i in 0..pairs.len() {
        let (bytes, next) = pairs.pair(i);
        if is_key(key, bytes) {
            value = match joined_next(alloc, job, value, next, m) {
                Ok(joined) => Some(joined),
                Err(e) => return Err(e),
            };
        }
    }
    Ok(value)
}

/// Whether a key has these bytes.
fn is_key(key: &Key, bytes: &[u8]) -> bool
    ensures { result ≡ eq_by_cmp key_cmp key.now bytes.now }
{
    key.bytes().cmp(&bytes) == Ordering::Equal
}

/// A value, if there is one, joined with the next one.
fn joined_next<J: Job>(
    alloc: Global,
    job: &J,
    value: Option<J::Val>,
    next: &J::Val,
    m: &mut J::Meter,
) -> Result<J::Val, AllocError>
    requires value { IfSome value (J.good (J.setting job.now)) }
    requires next { J.good (J.setting job.now) next.now }
    ensures joined { IfOk result (λ v. Some v ≡ joined_found (J.joined (J.setting job.now)) value (Some next.now)) }
    ensures good { IfOk result (J.good (J.setting job.now)) }
{
    match value {
        None => J::copy(alloc, next),
        Some(old) => job.combine(alloc, &old, next, m),
    }
}
