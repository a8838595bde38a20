//! The job that keeps the last value of each key.
ghost use Rattle.job_laws.specs.Forms.{is_latest_record};
ghost use Rattle.jobs_basic.specs.Latest.{latest_emits, latest_joined, latest_good, latest_text, latest_encoded, latest_emits_good, latest_join_laws};

use crate::Bytes;
use crate::lines::put_line;
use definitions::MOST_RECORD;
use job_laws::{Emit, Job, Key, Meter, tab_at};
use std::alloc::{AllocError, Global};
use std::marker::PhantomData;

/// The last value of each key. A record is the key, a TAB and the value; the key is not empty, and the value is the
/// rest, TABs included. Joining keeps the right value, so it is not commutative and the job has no [`job_laws::Swaps`].
/// The setting is 0.
#[derive(Drop)]
pub struct Latest<M: Meter> {
    meter: PhantomData<M>,
}

impl<M: Meter> Latest<M> {
    /// The job; it has no state.
    pub fn new() -> Latest<M> {
        Latest { meter: PhantomData }
    }
}

impl<M: Meter> Job for Latest<M> {
    type Val = Bytes;

    type Meter = M;

    ghost setting = { λ _. 0 };

    ghost accepts = { λ _ r. is_latest_record r };

    ghost emits = { λ _ r. latest_emits r };

    ghost joined = { λ _ a b. latest_joined a b };

    ghost good = { λ _ v. latest_good v };

    ghost text = { λ _ key v. latest_text key v };

    ghost encoded = { λ v. latest_encoded v };

    fn setting(&self) -> u32 {
        0
    }

    fn accepts(&self, r: &[u8]) -> bool {
        let at = tab_at(r);
        r.len() <= MOST_RECORD && at < r.len() && at > 0
    }

    fn map(
        &self,
        alloc: Global,
        r: &[u8],
        out: &mut Emit<Bytes>,
        m: &mut M,
    ) -> Result<(), AllocError> {
        m.map();
        let at = tab_at(r);
        let value = Bytes::of(alloc, &r[at + 1..])?;
        out.put(&r[..at], value)
    }

    fn combine(
        &self,
        _alloc: Global,
        _a: &Bytes,
        b: &Bytes,
        m: &mut M,
    ) -> Result<Bytes, AllocError> {
        m.join();
        b.share()
    }

    fn line(
        &self,
        _alloc: Global,
        k: &Key,
        v: &Bytes,
        out: &mut Vec<u8>,
    ) -> Result<(), AllocError> {
        put_line(k.bytes(), v.bytes(), out)
    }

    fn copy(_alloc: Global, v: &Bytes) -> Result<Bytes, AllocError> {
        v.share()
    }

    fn same(a: &Bytes, b: &Bytes) -> bool {
        a.bytes() == b.bytes()
    }

    fn encode(v: &Bytes, out: &mut Vec<u8>) -> Result<(), AllocError> {
        out.extend_from_slice(v.bytes())
    }

    ghost emits_good = { λ s r h. latest_emits_good r };

    ghost join_laws = { λ s. latest_join_laws };
}
