//! Scripts served over each kind of window.
ghost use Rattle.std.specs.Prelude.{◌≤◌};
ghost use Rattle.definitions.specs.Limits.{most_places};

use crate::calling::{basic_jobs, run, serve_plainly, words};
use coalescing_tree::CoalescingTree;
use folding_tree::FoldingTree;
use job_laws::{CountMeter, Job, JobSet};
use jobs_basic::{Count, Index, Latest};
use random_tree::RandomTree;
use record_text::Kind;
use run_settings::Settings;
use slider_io::{NoGate, SureSink, SureSource};
use slider_program::{line_of_fault, new_meters};
use slider_session::{Halt, serve};
use std::alloc::{AllocError, Global};
use std::sync::Wait;
use std::thread::Threads;
use tree_laws::Tree;

/// The job that counts words.
type Counting = Count<CountMeter>;

/// What was written for a script, and the line of the fault that ended it, or nothing.
#[derive(Drop)]
struct Served {
    out: Vec<u8>,
    fault: String,
}

/// Serves a script in trees of a kind, over a window, where a circle has `places` places.
fn served_in<
    J: Job<Meter = CountMeter, Val: Send + Sync> + Send + Sync,
    T: Tree<J> + Send,
    R: Threads + Wait + Sync,
>(rt: &R, alloc: Global, job: J, places: u32, script: &[u8]) -> Result<Served, AllocError>
    requires { (1 ≤ places) × (places ≤ most_places) }
{
    let Ok(mut meters) = new_meters(alloc) else {
        return Err(AllocError);
    };
    let settings = Settings {
        places,
        parts: 3,
        workers: 2,
        shards: 2,
        ..Settings::default()
    };
    let mut source = SureSource::new(Vec::from_slice(alloc, script)?);
    let mut out = SureSink::new(alloc);
    let mut err = SureSink::new(alloc);
    let fault = match serve::<J, T, _, _, _, _, R>(
        alloc,
        rt,
        job,
        settings,
        &mut source,
        &mut out,
        &mut err,
        &mut meters,
        &NoGate,
    ) {
        Ok(()) => String::new(alloc),
        Err(Halt::Script(fault)) => line_of_fault(alloc, fault)?,
        Err(_) => return Err(AllocError),
    };
    let out = Vec::from_slice(alloc, out.held())?;
    Ok(Served { out, fault })
}

/// Counts the words of a script over a circle of `places` places, by the program.
fn circled<R: Threads + Wait + Sync>(
    rt: &R,
    alloc: Global,
    places: u32,
    script: &[u8],
) -> Result<Served, AllocError> {
    let line = format!(in alloc;
        "--job count --tree rotating --buckets {places} --parts 3 --workers 2 --shards 2"
    )?;
    let words = words(alloc, line.as_str())?;
    let ran = run(rt, alloc, words.as_slice(), script)?;
    match String::from_utf8(ran.err) {
        Ok(fault) => Ok(Served {
            out: ran.out,
            fault,
        }),
        Err(_) => Err(AllocError),
    }
}

/// Counts the words of a script over a window of a kind, where a circle has `places` places.
fn counted<R: Threads + Wait + Sync>(
    rt: &R,
    alloc: Global,
    kind: Kind,
    places: u32,
    script: &[u8],
) -> Result<Served, AllocError>
    requires { (1 ≤ places) × (places ≤ most_places) }
{
    let job = basic_jobs().count();
    match kind {
        Kind::Buckets => served_in::<Counting, FoldingTree<Counting>, R>(
            rt, alloc, job, places, script,
        ),
        Kind::Circle => circled(rt, alloc, places, script),
        Kind::Growing => served_in::<Counting, CoalescingTree<Counting>, R>(
            rt, alloc, job, places, script,
        ),
        Kind::Document => served_in::<Counting, RandomTree<Counting>, R>(
            rt, alloc, job, places, script,
        ),
    }
}

/// The commands that scripts are made of: of all kinds, so a window lacks some of them.
const COMMANDS: [&[u8]; 16] = [
    b"run\n",
    b"bucket 2\na b\nc\n",
    b"bucket 1\nb b\n",
    b"bucket 0\n",
    b"late 0 1\nd\n",
    b"late 1 2\na\nc c\n",
    b"drop 1\n",
    b"drop 0\n",
    b"run\n",
    b"load 3\nx y\ny\nz\n",
    b"edit 1 1 2\nw\nv v\n",
    b"edit 0 2 1\nx\n",
    b"file f\n",
    b"file \n",
    b"remove f\n",
    b"load 0\n",
];

/// A script of a number of these commands, from number `from` up to `to`, drawn by a linear congruential generator
/// modulo 2^64.
fn script_from(alloc: Global, seed: u64, from: u64, to: u64) -> Result<Vec<u8>, AllocError> {
    let mut script = Vec::new(alloc);
    let mut state = seed.wrapping_add(1);
    for _ in 0..12 {
        state = state
            .wrapping_mul(6364136223846793005)
            .wrapping_add(1442695040888963407);
        let drawn = ((state >> 33) % to.clamp(1, 16)).max(from.min(15));
        script.extend_from_slice(COMMANDS[drawn as usize])?;
    }
    Ok(script)
}

/// Whether a script is served as by the plain program.
fn serves_alike<R: Threads + Wait + Sync>(
    rt: &R,
    alloc: Global,
    kind: Kind,
    script: &[u8],
) -> Result<bool, AllocError> {
    let real = counted(rt, alloc, kind, 3, script)?;
    let plain = serve_plainly(alloc, basic_jobs().count(), kind, 3, script)?;
    Ok(real.out == plain.out && real.fault.as_bytes() == plain.err.as_slice())
}

#[test]
fn made_scripts_are_served_alike(rt: HostRuntime) -> Result<(), AllocError> {
    let alloc = rt.alloc();
    for seed in 0..30u64 {
        let buckets = script_from(alloc, seed, 0, 9)?;
        let files = script_from(alloc, seed, 8, 16)?;
        let adding = script_from(alloc, seed, 0, 4)?;
        assert!(rt; serves_alike(&rt, alloc, Kind::Buckets, buckets.as_slice())?);
        assert!(rt; serves_alike(&rt, alloc, Kind::Circle, buckets.as_slice())?);
        assert!(rt; serves_alike(&rt, alloc, Kind::Growing, adding.as_slice())?);
        assert!(rt; serves_alike(&rt, alloc, Kind::Document, files.as_slice())?);
    }
    Ok(())
}

#[test]
fn each_kind_answers_its_window(rt: HostRuntime) -> Result<(), AllocError> {
    let alloc = rt.alloc();
    let script = b"bucket 1\na\nbucket 1\nb\nbucket 1\nc\nrun\n";
    let circle = counted(&rt, alloc, Kind::Circle, 2, script)?;
    assert!(rt; circle.out.as_slice() == b"# run 1 keys 2\nb\t1\nc\t1\n".as_slice());
    let growing = counted(&rt, alloc, Kind::Growing, 2, script)?;
    assert!(rt; growing.out.as_slice() == b"# run 1 keys 3\na\t1\nb\t1\nc\t1\n".as_slice());
    let script = b"bucket 1\na\nbucket 1\nb\ndrop 1\nrun\n";
    let buckets = counted(&rt, alloc, Kind::Buckets, 2, script)?;
    assert!(rt; buckets.out.as_slice() == b"# run 1 keys 1\nb\t1\n".as_slice());
    let script = b"load 3\na\nb\nc\nedit 1 1 2\nx\ny\nrun\n";
    let document = counted(&rt, alloc, Kind::Document, 2, script)?;
    assert!(rt; document.out.as_slice() == b"# run 1 keys 4\na\t1\nc\t1\nx\t1\ny\t1\n".as_slice());
    Ok(())
}

#[test]
fn files_are_answered_in_name_order(rt: HostRuntime) -> Result<(), AllocError> {
    let alloc = rt.alloc();
    let script = b"file b\nload 1\nk\t1\nfile a\nload 1\nk\t2\nrun\nremove b\nrun\n";
    let files = served_in::<Latest<CountMeter>, RandomTree<Latest<CountMeter>>, HostRuntime>(
        &rt,
        alloc,
        Latest::new(),
        2,
        script,
    )?;
    assert!(rt; files.out.as_slice() == b"# run 1 keys 1\nk\t1\n# run 2 keys 1\nk\t2\n".as_slice());
    assert!(rt; files.fault.is_empty());
    Ok(())
}

#[test]
fn a_late_record_is_refused_at_its_line(rt: HostRuntime) -> Result<(), AllocError> {
    let alloc = rt.alloc();
    let script =
        b"bucket 1\nk\t1\nbucket 1\nk\t2\nlate 0 1\nk\t3\nrun\ndrop 0\nlate 1 1\nk\t4\nrun\nlate 2 0\n";
    let late = served_in::<Latest<CountMeter>, FoldingTree<Latest<CountMeter>>, HostRuntime>(
        &rt,
        alloc,
        Latest::new(),
        2,
        script,
    )?;
    assert!(rt; late.out.as_slice() == b"# run 1 keys 1\nk\t2\n# run 2 keys 1\nk\t4\n".as_slice());
    assert!(rt; late.fault.as_str() == "fault 12 many\n");
    Ok(())
}

#[test]
fn a_record_of_another_form_is_refused_at_its_line(rt: HostRuntime) -> Result<(), AllocError> {
    let alloc = rt.alloc();
    let script = b"run\nbucket 2\n1\ta\nx\nrun\n";
    let record = served_in::<Index<CountMeter>, CoalescingTree<Index<CountMeter>>, HostRuntime>(
        &rt,
        alloc,
        Index::new(),
        2,
        script,
    )?;
    assert!(rt; record.out.as_slice() == b"# run 1 keys 0\n".as_slice());
    assert!(rt; record.fault.as_str() == "fault 4 record\n");
    Ok(())
}

#[test]
fn each_kind_refuses_at_its_line(rt: HostRuntime) -> Result<(), AllocError> {
    let alloc = rt.alloc();
    let edit = counted(&rt, alloc, Kind::Document, 2, b"edit 0 1 0\n")?;
    assert!(rt; edit.fault.as_str() == "fault 1 many\n");
    let drop_here = counted(&rt, alloc, Kind::Growing, 2, b"drop 0\n")?;
    assert!(rt; drop_here.fault.as_str() == "fault 1 nothere\n");
    let bucket = counted(&rt, alloc, Kind::Document, 2, b"bucket 0\n")?;
    assert!(rt; bucket.fault.as_str() == "fault 1 nothere\n");
    Ok(())
}
