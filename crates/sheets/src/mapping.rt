//! From records to the sheet of each part.
ghost use Rattle.std.specs.Prelude.{◌≡◌, ◌≤◌, length, IfOk, OnOk};
ghost use Rattle.definitions.specs.Answer.{pairs_of};
ghost use Rattle.definitions.specs.Tables.{HasGoodValues};
ghost use Rattle.job_laws.specs.Counted.{RoseBy, risen_by};
ghost use Rattle.job_laws.specs.Meanings.{AllAccepted, meaning_of};
ghost use Rattle.sheets.specs.Parts.{IsMapped};

use crate::Sheet;
use crate::grouping::grouped;
use crate::parts::sheets_of_parts;
use job_laws::{Emit, Job, Meter};
use record_text::Records;
use std::alloc::{AllocError, Global};

/// The sheets of the records, one for each of `parts` parts: the entries of that part in the table of the pairs that
/// the records emit, in emitted order. It counts a map for each record. It is one pass over the pairs and a sort of the
/// distinct keys.
pub fn map_sheets<J: Job>(
    alloc: Global,
    job: &J,
    records: &Records,
    parts: u32,
    m: &mut J::Meter,
) -> Result<Vec<Sheet<J>>, AllocError>
    requires accepted { AllAccepted (meaning_of J.Job job.now) records.now }
    requires parts { (1 ≤ parts) × (parts ≤ 16) }
    ensures ok { IfOk result (λ sheets. IsMapped (meaning_of J.Job job.now) (J.setting job.now) parts records.now sheets.items) }
    ensures mapped { OnOk result ((J.Meter.counts m.new).maps ≡ risen_by (length records.now) (J.Meter.counts m.old).maps) }

    // Whatever it returns:
    ensures counted { RoseBy (length records.now) 0 (length (pairs_of (J.emits (J.setting job.now)) records.now)) (J.Meter.counts m.old) (J.Meter.counts m.new) }
{
    let pairs = map_records(alloc, job, records, m)?;
    let entries = grouped(alloc, job, &pairs, m)?;
    sheets_of_parts(alloc, job.setting(), entries, parts)
}

fn map_records<J: Job>(
    alloc: Global,
    job: &J,
    records: &Records,
    m: &mut J::Meter,
) -> Result<Emit<J::Val>, AllocError>
    requires { AllAccepted (meaning_of J.Job job.now) records.now }
    ensures ok { IfOk result (λ pairs. pairs ≡ pairs_of (J.emits (J.setting job.now)) records.now) }
    ensures mapped { OnOk result ((J.Meter.counts m.new).maps ≡ risen_by (length records.now) (J.Meter.counts m.old).maps) }
    ensures counted { RoseBy (length records.now) 0 0 (J.Meter.counts m.old) (J.Meter.counts m.new) }
{
    let mut pairs = Emit::new(alloc);
    'records: for i in 0..records.len() {
        match job.map(alloc, records.get(i), &mut pairs, m) {
            Ok(()) => (),
            Err(e) => return Err(e),
        }
    }
    Ok(pairs)
}
