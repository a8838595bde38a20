//! Sheets of the program's own jobs.
ghost use Rattle.std.specs.Prelude.{◌≡◌, All, IsTrue};

use crate::calling::basic_jobs;
use job_laws::{CountMeter, Counts, Job, JobSet, Meter};
use record_text::Records;
use sheets::{Sheet, map_sheets, merge_sheets, same_sheet};
use slider_program::BasicJobs;
use std::alloc::{AllocError, Global};

/// Whether a job accepts all records.
fn all_accepted<J: Job>(job: &J, records: &Records) -> bool
    ensures { IsTrue result → All (λ r. IsTrue (J.accepts (J.setting job.now) r)) records.now }
{
    for i in 0..records.len() {
        if !job.accepts(records.get(i)) {
            return false;
        }
    }
    true
}

/// The sheet of records in one part; an empty one if the job does not accept them all.
fn sheet_of<J: Job>(
    alloc: Global,
    job: &J,
    records: &Records,
    meter: &mut J::Meter,
) -> Result<Sheet<J>, AllocError> {
    if all_accepted(job, records) {
        let mut sheets = map_sheets(alloc, job, records, 1, meter)?;
        if let Some(sheet) = sheets.pop() {
            return Ok(sheet);
        }
    }
    Sheet::empty(alloc, job.setting())
}

/// The lines of two sheets and of their merge.
fn merged_lines<J: Job>(
    alloc: Global,
    job: &J,
    a: &Sheet<J>,
    b: &Sheet<J>,
    meter: &mut J::Meter,
) -> Result<Vec<u8>, AllocError> {
    let mut lines = Vec::new(alloc);
    if a.setting() == job.setting() && b.setting() == job.setting() {
        a.write_lines(alloc, job, &mut lines)?;
        b.write_lines(alloc, job, &mut lines)?;
        let both = merge_sheets(alloc, job, a, b, meter)?;
        both.write_lines(alloc, job, &mut lines)?;
    }
    Ok(lines)
}

#[test]
fn tables_of_two_records_merge(rt: HostRuntime) -> Result<(), AllocError> {
    let alloc = rt.alloc();
    let job = basic_jobs().count();
    let mut meter = CountMeter::new();
    let mut records = Records::new(alloc);
    records.push(b"a")?;
    records.push(b"a b")?;
    let mut more = Records::new(alloc);
    more.push(b"b c")?;
    let left = sheet_of(alloc, &job, &records, &mut meter)?;
    assert!(rt; meter.counts().maps == 2);
    let right = sheet_of(alloc, &job, &more, &mut meter)?;
    let before = meter.counts();
    let lines = merged_lines(alloc, &job, &left, &right, &mut meter)?;
    assert!(rt; lines.as_slice() == b"a\t2\nb\t1\nb\t1\nc\t1\na\t2\nb\t2\nc\t1\n".as_slice());
    assert!(rt;
        meter.counts()
            == Counts {
                maps: 3,
                merges: 1,
                joins: before.joins.saturating_add(1)
            }
    );
    let empty: Sheet<<BasicJobs<CountMeter> as JobSet>::Count> = Sheet::empty(alloc, 0)?;
    assert!(rt; empty.entries().len() == 0);
    assert!(rt; same_sheet(&empty, &empty.share()?));
    Ok(())
}
