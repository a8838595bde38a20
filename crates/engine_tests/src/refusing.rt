//! A job that counts words, and is out of memory once.
ghost use Rattle.job_laws.specs.Forms.{is_count_record};
ghost use Rattle.jobs_basic.specs.Count.{count_emits, count_joined, count_good, count_text, count_encoded, count_emits_good, count_join_laws, count_joined_comm};

use job_laws::{Emit, Job, Key, Meter, Swaps};
use jobs_basic::Count;
use std::alloc::{AllocError, Global};
use std::sync::atomic::{AtomicU64, Ordering};

/// Counts words. Of all calls of `map` and `combine` the one numbered `refused`, from 1, is out of memory.
#[derive(Drop)]
pub struct Refusing<M: Meter> {
    count: Count<M>,
    calls: AtomicU64,
    refused: u64,
}

impl<M: Meter> Refusing<M> {
    /// The job that refuses this call, or none at 0.
    pub fn new(refused: u64) -> Refusing<M> {
        Refusing {
            count: Count::new(),
            calls: AtomicU64::new(0),
            refused,
        }
    }

    // Counts a call, and answers whether it is the one that is refused.
    fn refuses(&self) -> bool {
        self.calls.fetch_add(1, Ordering::SeqCst).wrapping_add(1) == self.refused
    }
}

impl<M: Meter> Job for Refusing<M> {
    type Val = u64;

    type Meter = M;

    ghost setting = { λ _. 0 };

    ghost accepts = { λ _ r. is_count_record r };

    ghost emits = { λ _ r. count_emits r };

    ghost joined = { λ _ a b. count_joined a b };

    ghost good = { λ _ n. count_good n };

    ghost text = { λ _ word n. count_text word n };

    ghost encoded = { λ n. count_encoded n };

    fn setting(&self) -> u32 {
        self.count.setting()
    }

    fn accepts(&self, r: &[u8]) -> bool {
        self.count.accepts(r)
    }

    fn map(
        &self,
        alloc: Global,
        r: &[u8],
        out: &mut Emit<u64>,
        m: &mut M,
    ) -> Result<(), AllocError> {
        if self.refuses() {
            m.map();
            return Err(AllocError);
        }
        self.count.map(alloc, r, out, m)
    }

    fn combine(&self, alloc: Global, a: &u64, b: &u64, m: &mut M) -> Result<u64, AllocError> {
        let sum = self.count.combine(alloc, a, b, m)?;
        if self.refuses() {
            return Err(AllocError);
        }
        Ok(sum)
    }

    fn line(&self, alloc: Global, k: &Key, v: &u64, out: &mut Vec<u8>) -> Result<(), AllocError> {
        self.count.line(alloc, k, v, out)
    }

    fn copy(alloc: Global, v: &u64) -> Result<u64, AllocError> {
        Count::<M>::copy(alloc, v)
    }

    fn same(a: &u64, b: &u64) -> bool {
        Count::<M>::same(a, b)
    }

    fn encode(v: &u64, out: &mut Vec<u8>) -> Result<(), AllocError> {
        Count::<M>::encode(v, out)
    }

    ghost emits_good = { λ s r h. count_emits_good r };

    ghost join_laws = { λ s. count_join_laws };
}

impl<M: Meter> Swaps for Refusing<M> {
    ghost joined_comm = { λ s a b g h. count_joined_comm a b };
}
