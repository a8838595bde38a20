//! Leaves of single records, the shifts that bring them, and merges made without a tree.
ghost use Rattle.std.specs.Prelude.{◌≡◌, IsTrue};
ghost use Rattle.job_laws.specs.Meanings.{AllAccepted, meaning_of};

use crate::window::all_below;
use job_laws::{Job, Meter};
use record_text::{Places, Records, Shift, is_record};
use sheets::{Sheet, map_sheets, merge_sheets};
use std::alloc::{AllocError, Global};

fn all_accepted<J: Job>(job: &J, records: &Records) -> bool
    ensures { IsTrue result → AllAccepted (meaning_of J.Job job.now) records.now }
{
    'records: for i in 0..records.len() {
        if !job.accepts(records.get(i)) {
            return false;
        }
    }
    true
}

/// The sheet of one record; an empty one if the job does not accept it.
pub(crate) fn leaf<J: Job>(
    alloc: Global,
    job: &J,
    record: &[u8],
    m: &mut J::Meter,
) -> Result<Sheet<J>, AllocError> {
    let mut records = Records::new(alloc);
    if is_record(record) {
        records.push(record)?;
    }
    if all_accepted(job, &records) {
        let mut sheets = map_sheets(alloc, job, &records, 1, m)?;
        if let Some(sheet) = sheets.pop() {
            return Ok(sheet);
        }
    }
    Sheet::empty(alloc, job.setting())
}

/// The sheets of the records of a text, one for each. A record ends with LF.
pub(crate) fn leaves<J: Job>(
    alloc: Global,
    job: &J,
    text: &[u8],
    m: &mut J::Meter,
) -> Result<Vec<Sheet<J>>, AllocError> {
    let mut sheets = Vec::new(alloc);
    let mut from = 0usize;
    'bytes: for i in 0..text.len() {
        if text[i] == b'\n' {
            sheets.push(leaf(alloc, job, &text[from..i], m)?)?;
            from = i + 1;
        }
    }
    Ok(sheets)
}

// The rising ones of the places, in order.
fn places_of(alloc: Global, list: &[usize]) -> Result<Places, AllocError> {
    let mut places = Places::new(alloc);
    'places: for i in 0..list.len() {
        if all_below(&places, list[i]) {
            places.push(list[i])?;
        }
    }
    Ok(places)
}

/// The slide of a window with this first leaf, by which `gone` leaves go, and which brings `news` sheets, those of the
/// changed places first.
pub(crate) fn slide(
    alloc: Global,
    first: u64,
    gone: usize,
    changed: &[usize],
    news: usize,
) -> Result<Shift, AllocError> {
    let places = places_of(alloc, changed)?;
    Ok(Shift::Slide {
        first: first.wrapping_add(gone as u64),
        gone,
        places,
        fresh: news.saturating_sub(changed.len()),
    })
}

/// The splice of a document by which `gone` leaves go from the `first`th on, and `fresh` sheets come.
pub(crate) fn splice(first: usize, gone: usize, news: usize) -> Shift {
    Shift::Splice {
        first,
        gone,
        fresh: news,
    }
}

/// The merge from left to right of those sheets that have the job's setting.
pub(crate) fn plain<J: Job>(
    alloc: Global,
    job: &J,
    sheets: &[Sheet<J>],
    m: &mut J::Meter,
) -> Result<Sheet<J>, AllocError> {
    let mut all = Sheet::empty(alloc, job.setting())?;
    'sheets: for i in 0..sheets.len() {
        if all.setting() == job.setting() && sheets[i].setting() == job.setting() {
            all = merge_sheets(alloc, job, &all, &sheets[i], m)?;
        }
    }
    Ok(all)
}

/// A sheet's lines, if it has the job's setting.
pub(crate) fn lines_of<J: Job>(
    alloc: Global,
    job: &J,
    sheet: &Sheet<J>,
) -> Result<Vec<u8>, AllocError> {
    let mut lines = Vec::new(alloc);
    if sheet.setting() == job.setting() {
        sheet.write_lines(alloc, job, &mut lines)?;
    }
    Ok(lines)
}
