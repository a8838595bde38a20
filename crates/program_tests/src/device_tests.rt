//! Devices that fail, and arguments that are refused before any device is touched.

use crate::calling::{Ran, basic_jobs, count_words, words};
use slider_io::{MemSink, MemSource, NoGate, Source, SureSink, SureSource};
use slider_program::{new_meters, run_program};
use std::alloc::{AllocError, Global};
use std::sync::Wait;
use std::thread::Threads;

/// Whether arguments that pair `latest` with the tree `rotating` are refused with this on `err`, which may fail at its
/// first call, and leave the source and `out` untouched.
fn refuses_the_pairing<Q: Threads + Wait + Sync>(
    rt: &Q,
    alloc: Global,
    err_fails: u64,
    said: &[u8],
) -> Result<bool, AllocError> {
    let Ok(mut meters) = new_meters(alloc) else {
        return Err(AllocError);
    };
    let words = words(alloc, "--job latest --tree rotating")?;
    let mut source = SureSource::new(Vec::from_slice(alloc, b"run\n")?);
    let mut out = SureSink::new(alloc);
    let mut err = MemSink::new(alloc, 64, Vec::from_slice(alloc, &[err_fails])?);
    let status = run_program(
        alloc,
        rt,
        words.as_slice(),
        &basic_jobs(),
        &mut source,
        &mut out,
        &mut err,
        &mut meters,
        &NoGate,
    );
    let mut left = [0u8; 4];
    let taken = source.take(&mut left);
    Ok(
        status == 2
            && out.held().is_empty()
            && err.held() == said
            && taken == Ok(4)
            && left == *b"run\n",
    )
}

#[test]
fn latest_refuses_the_rotating_tree(rt: HostRuntime) -> Result<(), AllocError> {
    assert!(rt; refuses_the_pairing(&rt, rt.alloc(), 0, b"usage tree\n")?);
    assert!(rt; refuses_the_pairing(&rt, rt.alloc(), 1, b"")?);
    Ok(())
}

/// Runs a script, with these arguments, over devices that move one byte at each call and fail at these calls, and
/// returns what was written and the status.
fn run_failing<Q: Threads + Wait + Sync>(
    rt: &Q,
    alloc: Global,
    words: &[String],
    source_fails: u64,
    out_fails: u64,
    err_fails: u64,
    script: &[u8],
) -> Result<Ran, AllocError> {
    let Ok(mut meters) = new_meters(alloc) else {
        return Err(AllocError);
    };
    let mut source = MemSource::new(
        Vec::from_slice(alloc, script)?,
        1,
        Vec::from_slice(alloc, &[source_fails])?,
    );
    let mut out = MemSink::new(alloc, 1, Vec::from_slice(alloc, &[out_fails])?);
    let mut err = MemSink::new(alloc, 1, Vec::from_slice(alloc, &[err_fails])?);
    let status = run_program(
        alloc,
        rt,
        words,
        &basic_jobs(),
        &mut source,
        &mut out,
        &mut err,
        &mut meters,
        &NoGate,
    );
    Ok(Ran {
        out: Vec::from_slice(alloc, out.held())?,
        err: Vec::from_slice(alloc, err.held())?,
        status,
    })
}

#[test]
fn a_failing_device_leaves_a_prefix(rt: HostRuntime) -> Result<(), AllocError> {
    let words = count_words(rt.alloc())?;
    let ran = run_failing(&rt, rt.alloc(), words.as_slice(), 5, 0, 0, b"run\nrun\n")?;
    assert_eq!(rt; ran.status, 4);
    assert!(rt; ran.out.as_slice() == b"# run 1 keys 0\n".as_slice());
    let ran = run_failing(&rt, rt.alloc(), words.as_slice(), 0, 11, 0, b"run\nrun\n")?;
    assert_eq!(rt; ran.status, 5);
    assert!(rt; ran.out.as_slice() == b"# run 1 ke".as_slice());
    let ran = run_failing(&rt, rt.alloc(), words.as_slice(), 0, 0, 3, b"run\nx\n")?;
    assert_eq!(rt; ran.status, 3);
    assert!(rt; ran.out.as_slice() == b"# run 1 keys 0\n".as_slice());
    assert!(rt; ran.err.as_slice() == b"fa".as_slice());
    Ok(())
}

#[test]
fn each_call_of_a_device_may_fail(rt: HostRuntime) -> Result<(), AllocError> {
    let words = count_words(rt.alloc())?;
    let script = b"bucket 1\na b a\nrun\n";
    let whole = b"# run 1 keys 2\na\t2\nb\t1\n";
    for k in 1..22u64 {
        let ran = run_failing(&rt, rt.alloc(), words.as_slice(), k, 0, 0, script)?;
        assert_eq!(rt; ran.status, if k < 21 { 4 } else { 0 }, "at {k}");
        let written = if k < 20 { 0 } else { whole.len() };
        assert!(rt; ran.out.as_slice() == &whole[..written], "at {k}");
    }
    for k in 1..25u64 {
        let ran = run_failing(&rt, rt.alloc(), words.as_slice(), 0, k, 0, script)?;
        assert_eq!(rt; ran.status, if k < 24 { 5 } else { 0 }, "at {k}");
        let written = (k.min(24) - 1) as usize;
        assert!(rt; ran.out.as_slice() == &whole[..written], "at {k}");
    }
    Ok(())
}

#[test]
fn a_failing_err_changes_no_status(rt: HostRuntime) -> Result<(), AllocError> {
    let words = words(rt.alloc(), "--job count --tree coalescing --work")?;
    let ran = run_failing(&rt, rt.alloc(), words.as_slice(), 0, 0, 5, b"run\nrun\n")?;
    let out = b"# run 1 keys 0\n# run 2 keys 0\n";
    assert!(rt; ran.is(out, b"workwork 2 maps 0 merges 0 joins 0\n", 0));
    let ran = run_failing(&rt, rt.alloc(), words.as_slice(), 0, 0, 3, b"run\nx\n")?;
    assert!(rt; ran.is(b"# run 1 keys 0\n", b"wofault 2 unknown\n", 3));
    let ran = run_failing(&rt, rt.alloc(), words.as_slice(), 0, 0, 34, b"run\nx\n")?;
    assert!(rt;
        ran.is(
            b"# run 1 keys 0\n",
            b"work 1 maps 0 merges 0 joins 0\nfa",
            3
        )
    );
    Ok(())
}
