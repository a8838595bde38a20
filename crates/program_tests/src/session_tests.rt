//! What `serve` and `Session::step` return if a device fails, called directly. All is generic in job and tree, since a
//! proof over a whole session becomes too long if it sees which they are.

use coalescing_tree::CoalescingTree;
use job_laws::{CountMeter, Job, MeterRow};
use jobs_basic::Count;
use record_text::Command;
use run_settings::Settings;
use slider_io::{MemSink, MemSource, NoGate, SureSink};
use slider_program::new_meters;
use slider_session::{Halt, Session, serve};
use std::alloc::Global;
use std::sync::Wait;
use std::test::Fail;
use std::thread::Threads;
use tree_laws::Tree;

type Words = Count<CountMeter>;

type Growing = CoalescingTree<Words>;

// What serving a script writes, and how it ends, over devices of which the source moves one byte at each call and `out`
// four. Each of them fails at the call with its number; 0 is none.
fn served<J: Job + Send + Sync, T: Tree<J> + Send, R: Threads + Wait + Sync>(
    rt: &R,
    alloc: Global,
    job: J,
    meters: &mut MeterRow<J::Meter>,
    script: &[u8],
    source_fails: u64,
    out_fails: u64,
) -> Result<(Vec<u8>, Result<(), Halt>), Fail>
where
    J::Val: Send + Sync,
    J::Meter: Send + Sync,
{
    let mut source = MemSource::new(
        Vec::from_slice(alloc, script)?,
        1,
        Vec::from_slice(alloc, &[source_fails])?,
    );
    let mut out = MemSink::new(alloc, 4, Vec::from_slice(alloc, &[out_fails])?);
    let mut err = SureSink::new(alloc);
    let ended = serve::<J, T, _, _, _, _, R>(
        alloc,
        rt,
        job,
        Settings::default(),
        &mut source,
        &mut out,
        &mut err,
        meters,
        &NoGate,
    );
    Ok((Vec::from_slice(alloc, out.held())?, ended))
}

const SCRIPT: &[u8] = b"bucket 1\nb a b\nrun\nrun\n";

#[test]
fn serving_ends_at_a_failed_read_after_all_runs_before_it(rt: HostRuntime) -> Result<(), Fail> {
    let alloc = rt.alloc();
    let mut meters = new_meters(alloc)?;
    let (out, ended) = served::<Words, Growing, HostRuntime>(
        &rt,
        alloc,
        Words::new(),
        &mut meters,
        SCRIPT,
        22,
        0,
    )?;
    assert_eq!(rt; ended, Err(Halt::Read));
    assert_eq!(rt; out.as_slice(), b"# run 1 keys 2\na\t1\nb\t2\n".as_slice());
    Ok(())
}

#[test]
fn serving_ends_at_a_failed_write_after_a_prefix(rt: HostRuntime) -> Result<(), Fail> {
    let alloc = rt.alloc();
    let mut meters = new_meters(alloc)?;
    let (out, ended) = served::<Words, Growing, HostRuntime>(
        &rt,
        alloc,
        Words::new(),
        &mut meters,
        SCRIPT,
        0,
        3,
    )?;
    assert_eq!(rt; ended, Err(Halt::Write));
    assert_eq!(rt; out.as_slice(), b"# run 1 ".as_slice());
    Ok(())
}

// Makes a run over nothing that can't write past four bytes, and then another one. Returns how the first ended, and what
// the second wrote.
fn run_twice<J: Job + Send + Sync, T: Tree<J> + Send, R: Threads + Wait + Sync>(
    rt: &R,
    alloc: Global,
    job: J,
    meters: &mut MeterRow<J::Meter>,
) -> Result<(Result<(), Halt>, Vec<u8>), Fail>
where
    J::Val: Send + Sync,
    J::Meter: Send + Sync,
{
    let mut session = Session::<J, T>::new(alloc, job, Settings::default())?;
    let mut failing = MemSink::new(alloc, 4, Vec::from_slice(alloc, &[2])?);
    let mut out = SureSink::new(alloc);
    let mut err = SureSink::new(alloc);
    let first = session.step(rt, Command::Run, 1, &mut failing, &mut err, meters, &NoGate);
    session.step(rt, Command::Run, 2, &mut out, &mut err, meters, &NoGate)?;
    Ok((first, Vec::from_slice(alloc, out.held())?))
}

#[test]
fn a_run_whose_write_failed_is_kept(rt: HostRuntime) -> Result<(), Fail> {
    let alloc = rt.alloc();
    let mut meters = new_meters(alloc)?;
    let (first, second) = run_twice::<Words, Growing, HostRuntime>(
        &rt,
        alloc,
        Words::new(),
        &mut meters,
    )?;
    assert_eq!(rt; first, Err(Halt::Write));
    assert_eq!(rt; second.as_slice(), b"# run 2 keys 0\n".as_slice());
    Ok(())
}
