//! The job that counts words. It accepts every record.
ghost use Rattle.std.specs.Prelude.{◌≡◌, ◌≤◌, ◌++◌, length, OnOk, OnErr};
ghost use Rattle.definitions.specs.Limits.{most_record};
ghost use Rattle.job_laws.specs.Forms.{is_count_record};
ghost use Rattle.job_laws.specs.Gained.{GainsPairs};
ghost use Rattle.jobs_basic.specs.Count.{count_emits, count_joined, count_good, count_text, count_encoded, count_emits_good, count_join_laws, count_joined_comm};

use crate::lines::put_line;
use crate::words::next_word;
use definitions::MOST_RECORD;
use itoa::Buffer;
use job_laws::{Emit, Job, Key, Meter, Swaps, be64_bytes};
use std::alloc::{AllocError, Global};
use std::marker::PhantomData;

/// How often each word occurs. A word is a longest run of the bytes `A` to `Z`, `a` to `z` and `0` to `9`; case is
/// kept. A count stays at 2^64 - 1. The setting is 0. Mapping is one pass over the record; joining takes constant time.
#[derive(Drop)]
pub struct Count<M: Meter> {
    meter: PhantomData<M>,
}

impl<M: Meter> Count<M> {
    /// The job; it has no state.
    pub fn new() -> Count<M> {
        Count { meter: PhantomData }
    }
}

// Appends each word of the record in order, with 1; out of memory, a prefix of them.
#[tactic(auto, using(job_laws::proofs::Gains::emitted_start, job_laws::proofs::Gains::emitted_more, job_laws::proofs::Gains::emitted_prefix, job_laws::proofs::Gains::emitted_end))]
fn emit_words(r: &[u8], out: &mut Emit<u64>) -> Result<(), AllocError>
    requires { length r.now ≤ most_record }
    ensures ok { OnOk result (out.new ≡ out.old ++ count_emits r.now) }
    ensures err { OnErr result (GainsPairs (count_emits r.now) out.old out.new) }
{
    let mut rest = r;
    'words: while let Some((word, behind)) = next_word(rest) {
        match out.put(word, 1) {
            Ok(()) => (),
            Err(e) => return Err(e),
        }
        rest = behind;
    }
    Ok(())
}

impl<M: Meter> Job for Count<M> {
    type Val = u64;

    type Meter = M;

    ghost setting = { λ _. 0 };

    ghost accepts = { λ _ r. is_count_record r };

    ghost emits = { λ _ r. count_emits r };

    ghost joined = { λ _ a b. count_joined a b };

    ghost good = { λ _ n. count_good n };

    ghost text = { λ _ word n. count_text word n };

    ghost encoded = { λ n. count_encoded n };

    fn setting(&self) -> u32 {
        0
    }

    fn accepts(&self, r: &[u8]) -> bool {
        r.len() <= MOST_RECORD
    }

    fn map(
        &self,
        _alloc: Global,
        r: &[u8],
        out: &mut Emit<u64>,
        m: &mut M,
    ) -> Result<(), AllocError> {
        m.map();
        emit_words(r, out)
    }

    fn combine(&self, _alloc: Global, a: &u64, b: &u64, m: &mut M) -> Result<u64, AllocError> {
        m.join();
        Ok(a.saturating_add(*b))
    }

    fn line(&self, _alloc: Global, k: &Key, v: &u64, out: &mut Vec<u8>) -> Result<(), AllocError> {
        let mut number = Buffer::new();
        put_line(k.bytes(), number.format(*v).as_bytes(), out)
    }

    fn copy(_alloc: Global, v: &u64) -> Result<u64, AllocError> {
        Ok(*v)
    }

    fn same(a: &u64, b: &u64) -> bool {
        *a == *b
    }

    fn encode(v: &u64, out: &mut Vec<u8>) -> Result<(), AllocError> {
        out.extend_from_slice(&be64_bytes(*v))
    }

    ghost emits_good = { λ s r h. count_emits_good r };

    ghost join_laws = { λ s. count_join_laws };
}

impl<M: Meter> Swaps for Count<M> {
    ghost joined_comm = { λ s a b g h. count_joined_comm a b };
}
