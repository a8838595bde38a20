//! How much work runs took, as their work lines report it.
ghost use Rattle.std.specs.Prelude.{◌≡◌, length, string_bytes, IfOk};
ghost use Rattle.slider_session.specs.WorkLines.{work_of, work_between, work_line, IsMoreWork};

use job_laws::{Meter, MeterRow};
use std::alloc::{AllocError, Global};

/// Counts of all meters of a row together: the maps of the lanes, and the merges and joins of the parts.
#[derive(Clone, Copy, Debug, PartialEq, Eq)]
pub struct Work {
    pub maps: u128,
    pub merges: u128,
    pub joins: u128,
}

impl Work {
    /// The counts of the meters.
    pub(crate) fn of<M: Meter>(meters: &MeterRow<M>) -> Work
        ensures work { result ≡ work_of M.counts meters.now }
        ensures counts { (length meters.now.lanes ≡ 16) × (length meters.now.parts ≡ 16) }
    {
        let mut work = Work {
            maps: 0,
            merges: 0,
            joins: 0,
        };
        'lanes: for lane in &meters.lanes {
            work.maps += lane.counts().maps as u128;
        }
        'parts: for part in &meters.parts {
            let counts = part.counts();
            work.merges += counts.merges as u128;
            work.joins += counts.joins as u128;
        }
        work
    }

    /// The work line of a run, with what was counted since `before`.
    pub(crate) fn line_since(
        &self,
        alloc: Global,
        run: u64,
        before: &Work,
    ) -> Result<String, AllocError>
        requires { IsMoreWork before.now self.now }
        ensures { IfOk result (λ line. string_bytes line ≡ work_line run (work_between before.now self.now)) }
    {
        let maps = self.maps - before.maps;
        let merges = self.merges - before.merges;
        let joins = self.joins - before.joins;
        format!(in alloc; "work {run} maps {maps} merges {merges} joins {joins}\n")
    }
}
