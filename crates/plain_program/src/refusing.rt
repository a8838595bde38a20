//! Why a window refuses a command.
ghost use Rattle.std.specs.Prelude.{◌≡◌, ◌<◌, None, IfOk, IfSome, nat_lt, length};
ghost use Rattle.definitions.specs.Limits.{most_text};
ghost use Rattle.definitions.specs.Records.{text_of};
ghost use Rattle.marker_chunker.specs.Cuts.{joined};
ghost use Rattle.window_manager.specs.Windows.{asks_too_many, brought, first_refused, has_command, is_one_too_many, refusal_of, window_after, current_records};

use crate::window::PlainWindow;
use definitions::{MOST_BUCKETS, MOST_FILES, MOST_TEXT};
use job_laws::Job;
use record_text::{Command, Kind, Records};
use std::alloc::{AllocError, Global};
use window_manager::WindowFault;

/// Carries out a command, or returns why it is refused. A window that refused a command is not used again.
pub(crate) fn plain_apply<J: Job>(
    alloc: Global,
    job: &J,
    window: &mut PlainWindow,
    c: &Command,
) -> Result<Option<WindowFault>, AllocError>
    ensures refusal { IfOk result (λ fault. fault ≡ refusal_of (J.accepts (J.setting job.now)) window.old c.now) }
    ensures after { IfOk result (λ fault. fault ≡ None → window.new ≡ window_after window.old c.now) }
{
    if !has_command(window.kind, c) {
        return Ok(Some(WindowFault::NotHere));
    }
    if window.asks_too_many(alloc, c)? {
        return Ok(Some(WindowFault::TooMany));
    }
    if let Some(index) = first_refused_of(job, c) {
        return Ok(Some(WindowFault::BadRecord {
            index: index as u32,
        }));
    }
    window.carry_out(alloc, c)?;
    if is_large(&window.leaves) {
        return Ok(Some(WindowFault::WindowLarge));
    }
    Ok(None)
}

/// Whether a kind of window has a command.
fn has_command(kind: Kind, c: &Command) -> bool
    ensures { result ≡ has_command kind c.now }
{
    match kind {
        Kind::Buckets => matches!(
            c,
            Command::Bucket(_) | Command::Drop(_) | Command::Late { .. }
        ),
        Kind::Circle => matches!(c, Command::Bucket(_) | Command::Late { .. }),
        Kind::Growing => matches!(c, Command::Bucket(_)),
        Kind::Document => matches!(
            c,
            Command::File { .. } | Command::Remove { .. } | Command::Edit { .. } | Command::Load(_)
        ),
    }
}

impl PlainWindow {
    /// Whether a command asks for more than there is, or than there may be.
    fn asks_too_many(&self, alloc: Global, c: &Command) -> Result<bool, AllocError>
        ensures { IfOk result (λ many. many ≡ asks_too_many self.now c.now) }
    {
        match c {
            Command::Bucket(_) => Ok(
                self.kind != Kind::Circle && self.leaves.len() >= MOST_BUCKETS,
            ),
            Command::Drop(n) => Ok(self.leaves.len() < *n as usize),
            Command::Late { place, .. } => Ok(self.leaves.len() <= *place as usize),
            Command::Edit { at, del, ins } => {
                let old = self.current_records(alloc)?;
                let end = *at as usize + *del as usize;
                Ok(old.len() < end || self.is_one_too_many(&old, ins))
            }
            Command::Load(records) => {
                let old = self.current_records(alloc)?;
                Ok(self.is_one_too_many(&old, records))
            }
            Command::File { .. } | Command::Remove { .. } | Command::Run => Ok(false),
        }
    }

    /// Whether these records would make the current file, which has `old` ones, one too many.
    fn is_one_too_many(&self, old: &Records, records: &Records) -> bool
        requires { old.now ≡ current_records self.now }
        ensures { result ≡ is_one_too_many self.now records.now }
    {
        old.len() == 0 && records.len() > 0 && self.files.len() >= MOST_FILES
    }
}

/// The index of the first record of a command that the job does not accept.
fn first_refused_of<J: Job>(job: &J, c: &Command) -> Option<usize>
    ensures first { result ≡ first_refused (J.accepts (J.setting job.now)) (brought c.now) }
    ensures within { IfSome result (λ index. index < 4294967295) }
{
    match c {
        Command::Bucket(records) | Command::Load(records) => first_refused_record(job, records),
        Command::Late { more, .. } => first_refused_record(job, more),
        Command::Edit { ins, .. } => first_refused_record(job, ins),
        Command::Drop(_) | Command::File { .. } | Command::Remove { .. } | Command::Run => None,
    }
}

/// The index of the first record that the job does not accept.
fn first_refused_record<J: Job>(job: &J, records: &Records) -> Option<usize>
    ensures first { result ≡ first_refused (J.accepts (J.setting job.now)) records.now }
    ensures within { IfSome result (λ index. index < 4294967295) }
{
    'records: for i in 0..records.len() {
        if !job.accepts(records.get(i)) {
            return Some(i);
        }
    }
    None
}

/// Whether leaves have more text than a window may have.
fn is_large(leaves: &[Records]) -> bool
    ensures { result ≡ nat_lt most_text (length (text_of (joined leaves.now))) }
{
    let mut size = 0;
    'leaves: for i in 0..leaves.len() {
        let more = leaves[i].text_len();
        if more > MOST_TEXT as u64 - size {
            return true;
        }
        size += more;
    }
    false
}
