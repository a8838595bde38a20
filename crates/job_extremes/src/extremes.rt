//! The job that keeps the least and the greatest number of each key.
ghost use Rattle.job_extremes.specs.Extremes.{is_extremes_record, extremes_emits, extremes_joined, extremes_good, extremes_text, extremes_encoded, extremes_emits_good, extremes_join_laws, extremes_joined_comm};

use crate::Extent;
use definitions::MOST_RECORD;
use job_laws::{Emit, Job, Key, Meter, Swaps, be32_bytes, tab_at};
use record_text::parse_number;
use std::alloc::{AllocError, Global};
use std::marker::PhantomData;

/// The least and the greatest number of each key. A record is the key, a TAB and the number; the key is not empty. The
/// setting is 0.
#[derive(Drop)]
pub struct Extremes<M: Meter> {
    meter: PhantomData<M>,
}

impl<M: Meter> Extremes<M> {
    /// The job; it has no state.
    pub fn new() -> Extremes<M> {
        Extremes { meter: PhantomData }
    }
}

impl<M: Meter> Job for Extremes<M> {
    type Val = Extent;

    type Meter = M;

    ghost setting = { λ _. 0 };

    ghost accepts = { λ _ r. is_extremes_record r };

    ghost emits = { λ _ r. extremes_emits r };

    ghost joined = { λ _ a b. extremes_joined a b };

    ghost good = { λ _ e. extremes_good e };

    ghost text = { λ _ key e. extremes_text key e };

    ghost encoded = { λ e. extremes_encoded e };

    fn setting(&self) -> u32 {
        0
    }

    fn accepts(&self, r: &[u8]) -> bool {
        let at = tab_at(r);
        r.len() <= MOST_RECORD && at > 0 && at < r.len() && parse_number(&r[at + 1..]).is_some()
    }

    fn map(
        &self,
        _alloc: Global,
        r: &[u8],
        out: &mut Emit<Extent>,
        m: &mut M,
    ) -> Result<(), AllocError> {
        m.map();
        let at = tab_at(r);
        if let Some(number) = parse_number(&r[at + 1..]) {
            let extent = Extent {
                least: number,
                greatest: number,
            };
            out.put(&r[..at], extent)?;
        }
        Ok(())
    }

    fn combine(
        &self,
        _alloc: Global,
        a: &Extent,
        b: &Extent,
        m: &mut M,
    ) -> Result<Extent, AllocError> {
        m.join();
        Ok(Extent {
            least: a.least.min(b.least),
            greatest: a.greatest.max(b.greatest),
        })
    }

    #[tactic(auto, using(job_laws::proofs::Gains::gains_nothing, job_laws::proofs::Gains::gains_unless_ok))]
    fn line(
        &self,
        alloc: Global,
        k: &Key,
        v: &Extent,
        out: &mut Vec<u8>,
    ) -> Result<(), AllocError> {
        let Extent { least, greatest } = *v;
        let numbers = format!(in alloc; "\t{least}\t{greatest}\n")?;
        out.extend_from_slice(k.bytes())?;
        out.extend_from_slice(numbers.as_bytes())
    }

    fn copy(_alloc: Global, v: &Extent) -> Result<Extent, AllocError> {
        Ok(*v)
    }

    fn same(a: &Extent, b: &Extent) -> bool {
        *a == *b
    }

    fn encode(v: &Extent, out: &mut Vec<u8>) -> Result<(), AllocError> {
        out.extend_from_slice(&be32_bytes(v.least))?;
        out.extend_from_slice(&be32_bytes(v.greatest))
    }

    ghost emits_good = { λ s r h. extremes_emits_good r };

    ghost join_laws = { λ s. extremes_join_laws };
}

impl<M: Meter> Swaps for Extremes<M> {
    ghost joined_comm = { λ s a b g h. extremes_joined_comm a b };
}
