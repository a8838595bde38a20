//! Calls of the program over devices in memory, and of the plain program.

use job_laws::{CountMeter, Job, JobSet};
use plain_program::plain_outcome;
use program_words::{JobName, read_words};
use record_text::Kind;
use slider_io::{NoGate, SureSink, SureSource};
use slider_program::{BasicJobs, line_of_fault, new_meters, run_program};
use std::alloc::{AllocError, Global};
use std::sync::Wait;
use std::thread::Threads;

/// What a run of the program wrote to `out` and `err`, and its status.
#[derive(Drop, PartialEq, Eq)]
pub struct Ran {
    pub out: Vec<u8>,
    pub err: Vec<u8>,
    pub status: u8,
}

impl Ran {
    /// Whether it wrote this to `out` and `err`, and ended with this status.
    pub fn is(&self, out: &[u8], err: &[u8], status: u8) -> bool {
        self.out.as_slice() == out && self.err.as_slice() == err && self.status == status
    }
}

/// The program's own jobs, with its own meter.
pub fn basic_jobs() -> BasicJobs<CountMeter> {
    BasicJobs::<CountMeter>::new()
}

/// The arguments `--job count --tree coalescing`.
pub fn count_words(alloc: Global) -> Result<Vec<String>, AllocError> {
    words(alloc, "--job count --tree coalescing")
}

/// The arguments in a line, split at its spaces.
pub fn words(alloc: Global, line: &str) -> Result<Vec<String>, AllocError> {
    let mut words = Vec::new(alloc);
    for word in line.split(' ') {
        words.push(String::from_str(alloc, word)?)?;
    }
    Ok(words)
}

/// Runs the program over a script in memory.
pub fn run<Q: Threads + Wait + Sync>(
    rt: &Q,
    alloc: Global,
    words: &[String],
    script: &[u8],
) -> Result<Ran, AllocError> {
    let Ok(mut meters) = new_meters(alloc) else {
        return Err(AllocError);
    };
    let mut source = SureSource::new(Vec::from_slice(alloc, script)?);
    let mut out = SureSink::new(alloc);
    let mut err = SureSink::new(alloc);
    let status = run_program(
        alloc,
        rt,
        words,
        &basic_jobs(),
        &mut source,
        &mut out,
        &mut err,
        &mut meters,
        &NoGate,
    );
    Ok(Ran {
        out: Vec::from_slice(alloc, out.held())?,
        err: Vec::from_slice(alloc, err.held())?,
        status,
    })
}

/// Whether the program, counting words, writes this to `out` and `err` and ends with this status, and the plain one
/// too.
pub fn gives<Q: Threads + Wait + Sync>(
    rt: &Q,
    alloc: Global,
    script: &[u8],
    out: &[u8],
    err: &[u8],
    status: u8,
) -> Result<bool, AllocError> {
    let words = count_words(alloc)?;
    both_give(rt, alloc, words.as_slice(), script, out, err, status)
}

/// Whether the program, called with the arguments in a line, writes this to `out` and `err`, and the plain one too.
pub fn line_gives<Q: Threads + Wait + Sync>(
    rt: &Q,
    alloc: Global,
    line: &str,
    script: &[u8],
    out: &[u8],
    err: &[u8],
) -> Result<bool, AllocError> {
    let words = words(alloc, line)?;
    let status = if err.is_empty() { 0 } else { 3 };
    both_give(rt, alloc, words.as_slice(), script, out, err, status)
}

/// Whether the program writes this and ends with this status for these arguments, and the plain one too.
fn both_give<Q: Threads + Wait + Sync>(
    rt: &Q,
    alloc: Global,
    words: &[String],
    script: &[u8],
    out: &[u8],
    err: &[u8],
    status: u8,
) -> Result<bool, AllocError> {
    let ran = run(rt, alloc, words, script)?;
    let plain = run_plainly(alloc, words, script)?;
    Ok(ran.is(out, err, status) && plain.is(out, err, status))
}

/// The bytes of `prefix`, then `count` times the byte `middle`, then `back`.
pub fn around(
    alloc: Global,
    prefix: &[u8],
    middle: u8,
    count: usize,
    back: &[u8],
) -> Result<Vec<u8>, AllocError> {
    let mut bytes = Vec::from_slice(alloc, prefix)?;
    for _ in 0..count {
        bytes.push(middle)?;
    }
    bytes.extend_from_slice(back)?;
    Ok(bytes)
}

/// What the plain program writes for a script over a window, where a circle has `places` places, and the line of its
/// fault.
pub fn serve_plainly<J: Job<Meter = CountMeter>>(
    alloc: Global,
    job: J,
    kind: Kind,
    places: u32,
    script: &[u8],
) -> Result<Ran, AllocError> {
    let mut meter = CountMeter::new();
    let script = Vec::from_slice(alloc, script)?;
    let plain = plain_outcome(alloc, &job, kind, places, script, &mut meter)?;
    let mut err = Vec::new(alloc);
    if let Some(fault) = plain.fault {
        err.extend_from_slice(line_of_fault(alloc, fault)?.as_bytes())?;
    }
    let status = if err.is_empty() { 0 } else { 3 };
    Ok(Ran {
        out: plain.written,
        err,
        status,
    })
}

/// What the plain program does for these arguments; only the status 2 if they are refused.
pub fn run_plainly(alloc: Global, words: &[String], script: &[u8]) -> Result<Ran, AllocError> {
    let Ok(plan) = read_words(alloc, words) else {
        return Ok(Ran {
            out: Vec::new(alloc),
            err: Vec::new(alloc),
            status: 2,
        });
    };
    let kind = plan.tree.kind();
    let places = plan.settings.places;
    match plan.job {
        JobName::Count => serve_plainly(alloc, basic_jobs().count(), kind, places, script),
        JobName::Index => serve_plainly(alloc, basic_jobs().index(), kind, places, script),
        JobName::TopK => serve_plainly(alloc, basic_jobs().topk(plan.k), kind, places, script),
        JobName::Latest => serve_plainly(alloc, basic_jobs().latest(), kind, places, script),
    }
}
