//! What one run writes.
ghost use Rattle.std.specs.Prelude.{◌≡◌, ◌++◌, ◌∷◌, [], OnOk};
ghost use Rattle.definitions.specs.Tables.{HasGoodValues, reduced, tabulate};
ghost use Rattle.definitions.specs.Answer.{lines_of};
ghost use Rattle.job_laws.specs.Meanings.{meaning_of};
ghost use Rattle.slider_session.specs.Output.{piece};
ghost use Rattle.slider_session.specs.Accepted.{HoldsAccepted};

use crate::keys::plain_keys;
use crate::pairs::plain_pairs;
use crate::reducing::plain_reduced;
use crate::window::PlainWindow;
use job_laws::{Emit, Job, Key};
use std::alloc::{AllocError, Global};

/// Appends to `out` what a run writes over a window: its header, and the lines of each key in byte order.
pub(crate) fn plain_piece<J: Job>(
    alloc: Global,
    job: &J,
    run: u64,
    window: &PlainWindow,
    out: &mut Vec<u8>,
    m: &mut J::Meter,
) -> Result<(), AllocError>
    requires { HoldsAccepted (meaning_of J.Job job.now) window.now }
    ensures { OnOk result (out.new.items ≡ out.old.items ++ piece (meaning_of J.Job job.now) run window.now) }
{
    let pairs = plain_pairs(alloc, job, window.leaves.as_slice(), m)?;
    let keys = plain_keys(alloc, &pairs)?;
    let count = keys.len();
    let header = format!(in alloc; "# run {run} keys {count}\n")?;
    out.extend_from_slice(header.as_bytes())?;
    write_keys(alloc, job, &pairs, &keys, out, m)?;
    Ok(())
}

/// Appends the lines of these keys in order, each with what its values in the pairs reduce to.
fn write_keys<J: Job>(
    alloc: Global,
    job: &J,
    pairs: &Emit<J::Val>,
    keys: &[Key],
    out: &mut Vec<u8>,
    m: &mut J::Meter,
) -> Result<(), AllocError>
    requires { HasGoodValues (J.good (J.setting job.now)) pairs.now }
    ensures { OnOk result (out.new.items ≡ out.old.items ++ lines_of (J.text (J.setting job.now)) (tabulate (reduced (J.joined (J.setting job.now)) pairs.now) keys.now)) }
{
    let mut rest = keys;
    'keys: while let [key, more @ ..] = rest {
        match write_key(alloc, job, pairs, key, out, m) {
            Ok(()) => (),
            Err(e) => return Err(e),
        }
        rest = more;
    }
    Ok(())
}

/// Appends the lines of one key.
fn write_key<J: Job>(
    alloc: Global,
    job: &J,
    pairs: &Emit<J::Val>,
    key: &Key,
    out: &mut Vec<u8>,
    m: &mut J::Meter,
) -> Result<(), AllocError>
    requires { HasGoodValues (J.good (J.setting job.now)) pairs.now }
    ensures { OnOk result (out.new.items ≡ out.old.items ++ lines_of (J.text (J.setting job.now)) (tabulate (reduced (J.joined (J.setting job.now)) pairs.now) (key.now ∷ []))) }
{
    match plain_reduced(alloc, job, pairs, key, m) {
        Ok(Some(value)) => job.line(alloc, key, &value, out),
        Ok(None) => Ok(()),
        Err(e) => Err(e),
    }
}
