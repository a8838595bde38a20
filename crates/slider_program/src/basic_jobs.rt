//! The jobs of the program, with meters of one type.
ghost use Rattle.std.specs.Prelude.{◌≡◌, refl};

use job_laws::{JobSet, Meter};
use job_topk::TopK;
use jobs_basic::{Count, Index, Latest};
use std::marker::PhantomData;

/// The jobs of `jobs_basic` and `job_topk`, with any type of meter.
#[derive(Drop)]
pub struct BasicJobs<M: Meter> {
    meter: PhantomData<M>,
}

impl<M: Meter> BasicJobs<M> {
    /// The four jobs; they have no state.
    pub fn new() -> BasicJobs<M> {
        BasicJobs { meter: PhantomData }
    }
}

impl<M: Meter + Send + Sync> JobSet for BasicJobs<M> {
    type Meter = M;

    type Count = Count<M>;

    type Index = Index<M>;

    type TopK = TopK<M>;

    type Latest = Latest<M>;

    fn count(&self) -> Count<M> {
        Count::<M>::new()
    }

    fn index(&self) -> Index<M> {
        Index::<M>::new()
    }

    fn topk(&self, k: u32) -> TopK<M> {
        TopK::<M>::new(k).unwrap()
    }

    fn latest(&self) -> Latest<M> {
        Latest::<M>::new()
    }

    ghost count_accepts = { λ r. refl };

    ghost index_accepts = { λ r. refl };

    ghost topk_accepts = { λ k r least most. refl };

    ghost latest_accepts = { λ r. refl };
}
