//! All pairs of a window.
ghost use Rattle.std.specs.Prelude.{◌≡◌, ◌++◌, All, IfOk, OnOk};
ghost use Rattle.definitions.specs.Answer.{pairs_of};
ghost use Rattle.job_laws.specs.Meanings.{AllAccepted, meaning_of};
ghost use Rattle.marker_chunker.specs.Cuts.{joined};

use job_laws::{Emit, Job};
use record_text::Records;
use std::alloc::{AllocError, Global};

/// The pairs of all records of a window, in order.
pub(crate) fn plain_pairs<J: Job>(
    alloc: Global,
    job: &J,
    leaves: &[Records],
    m: &mut J::Meter,
) -> Result<Emit<J::Val>, AllocError>
    requires { All (AllAccepted (meaning_of J.Job job.now)) leaves.now }
    ensures { IfOk result (λ pairs. pairs ≡ pairs_of (J.emits (J.setting job.now)) (joined leaves.now)) }
{
    let mut pairs = Emit::new(alloc);
    'leaves: for i in 0..leaves.len() {
        match map_leaf(alloc, job, &leaves[i], &mut pairs, m) {
            Ok(()) => (),
            Err(e) => return Err(e),
        }
    }
    Ok(pairs)
}

/// Appends the pairs of the records of a leaf.
fn map_leaf<J: Job>(
    alloc: Global,
    job: &J,
    leaf: &Records,
    out: &mut Emit<J::Val>,
    m: &mut J::Meter,
) -> Result<(), AllocError>
    requires { AllAccepted (meaning_of J.Job job.now) leaf.now }
    ensures { OnOk result (out.new ≡ out.old ++ pairs_of (J.emits (J.setting job.now)) leaf.now) }
{
    'records: for i in 0..leaf.len() {
        match job.map(alloc, leaf.get(i), out, m) {
            Ok(()) => (),
            Err(e) => return Err(e),
        }
    }
    Ok(())
}
