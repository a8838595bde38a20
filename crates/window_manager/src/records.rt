//! The refusals that depend on the records of a command: a record that the job does not accept, or too much text.
ghost use Rattle.std.specs.Prelude.{◌≡◌, ◌<◌, ◌≤◌, ◌+◌, length, nat_lt, IfSome, OnOk, IfOk, ◌++◌};
ghost use Rattle.definitions.specs.Limits.{most_text};
ghost use Rattle.definitions.specs.Records.{text_of};
ghost use Rattle.window_manager.specs.Windows.{first_refused, record_refusal};

use crate::WindowFault;
use job_laws::Job;
use record_text::Records;
use std::alloc::{AllocError, Global};

/// The most bytes of text of a window.
const MOST_TEXT: u64 = definitions::MOST_TEXT as u64;

/// The index of the first record that the job does not accept. It takes no memory.
pub fn first_refused_of<J: Job>(job: &J, records: &Records) -> Option<usize>
    ensures first { result ≡ first_refused (J.accepts (J.setting job.now)) records.now }
    ensures within { IfSome result (λ index. index < 4294967295) }
{
    'records: for i in 0..records.len() {
        if !job.accepts(records.get(i)) {
            return Some(i);
        }
    }
    None
}

/// Why these records are refused, when there is other text of a given size.
pub fn records_refusal<J: Job>(job: &J, records: &Records, kept: u64) -> Option<WindowFault>
    requires { kept ≤ most_text }
    ensures { result ≡ record_refusal (first_refused (J.accepts (J.setting job.now)) records.now) (nat_lt most_text (kept + length (text_of records.now))) }
{
    if let Some(index) = first_refused_of(job, records) {
        return Some(WindowFault::BadRecord {
            index: index as u32,
        });
    }
    if records.text_len() > MOST_TEXT - kept {
        return Some(WindowFault::WindowLarge);
    }
    None
}

/// A copy of the records with others after them.
pub fn joined_records(
    alloc: Global,
    records: &Records,
    more: &Records,
) -> Result<Records, AllocError>
    requires { length records.now + length more.now < 4294967296 }
    ensures { IfOk result (λ all. all ≡ records.now ++ more.now) }
{
    let mut all = records.copy(alloc)?;
    'more: for i in 0..more.len() {
        all.push(more.get(i))?;
    }
    Ok(all)
}
