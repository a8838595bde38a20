//! The work lines of scripts: what each run maps again and merges, over each kind of window.

use crate::calling::{around, run, run_plainly, words};
use std::alloc::{AllocError, Global};
use std::sync::Wait;
use std::thread::Threads;

/// Whether the program, called with the arguments in a line, writes this and these work lines, and the plain one writes
/// the same.
fn line_works<Q: Threads + Wait + Sync>(
    rt: &Q,
    alloc: Global,
    line: &str,
    script: &[u8],
    out: &[u8],
    work: &[u8],
) -> Result<bool, AllocError> {
    let words = words(alloc, line)?;
    let ran = run(rt, alloc, words.as_slice(), script)?;
    let plain = run_plainly(alloc, words.as_slice(), script)?;
    Ok(ran.is(out, work, 0) && plain.is(out, b"", 0))
}

#[test]
fn a_second_run_maps_the_new_bucket_alone(rt: HostRuntime) -> Result<(), AllocError> {
    let script = b"bucket 2\na\nb\nrun\nbucket 1\nc\nrun\nrun\n";
    let out =
        b"# run 1 keys 2\na\t1\nb\t1\n# run 2 keys 3\na\t1\nb\t1\nc\t1\n# run 3 keys 3\na\t1\nb\t1\nc\t1\n";
    let work =
        b"work 1 maps 2 merges 0 joins 0\nwork 2 maps 1 merges 1 joins 0\nwork 3 maps 0 merges 0 joins 0\n";
    for tree in ["coalescing", "folding"] {
        let line = format!(in rt.alloc(); "--job count --tree {tree} --work")?;
        assert!(rt;
            line_works(&rt, rt.alloc(), line.as_str(), script, out, work)?,
            "over {tree}"
        );
    }
    Ok(())
}

#[test]
fn a_circle_of_one_maps_and_never_merges(rt: HostRuntime) -> Result<(), AllocError> {
    let line = "--job count --tree rotating --buckets 1 --work";
    let script = b"bucket 1\na\nrun\nbucket 1\nb\nrun\n";
    let out = b"# run 1 keys 1\na\t1\n# run 2 keys 1\nb\t1\n";
    let work = b"work 1 maps 1 merges 0 joins 0\nwork 2 maps 1 merges 0 joins 0\n";
    assert!(rt; line_works(&rt, rt.alloc(), line, script, out, work)?);
    Ok(())
}

#[test]
fn one_bucket_in_five_takes_three_merges(rt: HostRuntime) -> Result<(), AllocError> {
    let line = "--job count --tree rotating --buckets 5 --work";
    let script =
        b"bucket 1\na\nbucket 1\nb\nbucket 1\nc\nbucket 1\nd\nbucket 1\ne\nrun\nbucket 1\nf\nrun\n";
    let out =
        b"# run 1 keys 5\na\t1\nb\t1\nc\t1\nd\t1\ne\t1\n# run 2 keys 5\nb\t1\nc\t1\nd\t1\ne\t1\nf\t1\n";
    let work = b"work 1 maps 5 merges 4 joins 0\nwork 2 maps 1 merges 3 joins 0\n";
    assert!(rt; line_works(&rt, rt.alloc(), line, script, out, work)?);
    Ok(())
}

#[test]
fn three_of_eight_places_take_two_merges(rt: HostRuntime) -> Result<(), AllocError> {
    let line = "--job count --tree rotating --buckets 8 --work";
    let script = b"bucket 1\na\nbucket 1\nb\nbucket 1\nc\nrun\n";
    let out = b"# run 1 keys 3\na\t1\nb\t1\nc\t1\n";
    let work = b"work 1 maps 3 merges 2 joins 0\n";
    assert!(rt; line_works(&rt, rt.alloc(), line, script, out, work)?);
    Ok(())
}

#[test]
fn a_late_record_changes_one_path(rt: HostRuntime) -> Result<(), AllocError> {
    let line = "--job count --tree rotating --buckets 5 --work";
    let script =
        b"bucket 1\na\nbucket 1\nb\nbucket 1\nc\nbucket 1\nd\nbucket 1\ne\nrun\nlate 0 1\nz\nrun\n";
    let out =
        b"# run 1 keys 5\na\t1\nb\t1\nc\t1\nd\t1\ne\t1\n# run 2 keys 6\na\t1\nb\t1\nc\t1\nd\t1\ne\t1\nz\t1\n";
    let work = b"work 1 maps 5 merges 4 joins 0\nwork 2 maps 2 merges 3 joins 0\n";
    assert!(rt; line_works(&rt, rt.alloc(), line, script, out, work)?);
    Ok(())
}

/// The record of 40,000 bytes that scripts begin a document with, twice, after `load 3`; `x` is the third.
fn loaded(alloc: Global) -> Result<Vec<u8>, AllocError> {
    let first = around(alloc, b"load 3\n", b'-', 40_000, b"\n")?;
    around(alloc, first.as_slice(), b'-', 40_000, b"\nx\nrun\n")
}

#[test]
fn an_edit_cuts_where_nothing_would(rt: HostRuntime) -> Result<(), AllocError> {
    let line = "--job count --tree random --work";
    let mut script = loaded(rt.alloc())?;
    script.extend_from_slice(b"edit 1 1 1\ny\nrun\n")?;
    let out = b"# run 1 keys 1\nx\t1\n# run 2 keys 2\nx\t1\ny\t1\n";
    let work = b"work 1 maps 3 merges 1 joins 0\nwork 2 maps 3 merges 0 joins 0\n";
    assert!(rt; line_works(&rt, rt.alloc(), line, script.as_slice(), out, work)?);
    Ok(())
}

#[test]
fn reloading_a_document_costs_no_merge(rt: HostRuntime) -> Result<(), AllocError> {
    let line = "--job count --tree random --workers 4 --keep 0 --work";
    let mut script = loaded(rt.alloc())?;
    let again = loaded(rt.alloc())?;
    script.extend_from_slice(again.as_slice())?;
    let out = b"# run 1 keys 1\nx\t1\n# run 2 keys 1\nx\t1\n";
    let work = b"work 1 maps 3 merges 1 joins 0\nwork 2 maps 0 merges 0 joins 0\n";
    assert!(rt; line_works(&rt, rt.alloc(), line, script.as_slice(), out, work)?);
    Ok(())
}

#[test]
fn kept_runs_decide_what_is_mapped_again(rt: HostRuntime) -> Result<(), AllocError> {
    let script =
        b"load 2\na b\nc\nrun\nedit 1 1 1\nd\nrun\nedit 1 1 1\ne\nrun\nedit 1 1 1\nc\nrun\n";
    let out =
        b"# run 1 keys 3\na\t1\nb\t1\nc\t1\n# run 2 keys 3\na\t1\nb\t1\nd\t1\n# run 3 keys 3\na\t1\nb\t1\ne\t1\n# run 4 keys 3\na\t1\nb\t1\nc\t1\n";
    for (keep, last) in [(0, 2), (3, 0)] {
        let line = format!(in rt.alloc(); "--job count --tree random --work --keep {keep}")?;
        let work = format!(in rt.alloc();
            "work 1 maps 2 merges 0 joins 0\nwork 2 maps 2 merges 0 joins 0\nwork 3 maps 2 merges 0 joins 0\nwork 4 maps {last} merges 0 joins 0\n"
        )?;
        assert!(rt;
            line_works(&rt, rt.alloc(), line.as_str(), script, out, work.as_bytes())?,
            "at {keep}"
        );
    }
    Ok(())
}

#[test]
fn equal_leaves_are_mapped_once(rt: HostRuntime) -> Result<(), AllocError> {
    let alloc = rt.alloc();
    let mut script = Vec::from_slice(alloc, b"load 4\n")?;
    for _ in 0..4 {
        let record = around(alloc, b"", b'-', 40_000, b"\n")?;
        script.extend_from_slice(record.as_slice())?;
    }
    script.extend_from_slice(b"run\n")?;
    let line = "--job count --tree random --work";
    let work = b"work 1 maps 1 merges 1 joins 0\n";
    assert!(rt;
        line_works(
            &rt,
            alloc,
            line,
            script.as_slice(),
            b"# run 1 keys 0\n",
            work
        )?
    );
    Ok(())
}

#[test]
fn a_moved_text_is_not_mapped_again(rt: HostRuntime) -> Result<(), AllocError> {
    let line = "--job count --tree random --work";
    let script =
        b"file a\nload 1\nx\nfile b\nload 1\ny\nrun\nfile a\nedit 0 0 1\nw\nrun\nfile c\nload 1\ny\nremove b\nrun\n";
    let out =
        b"# run 1 keys 2\nx\t1\ny\t1\n# run 2 keys 3\nw\t1\nx\t1\ny\t1\n# run 3 keys 3\nw\t1\nx\t1\ny\t1\n";
    let work =
        b"work 1 maps 2 merges 1 joins 0\nwork 2 maps 2 merges 1 joins 0\nwork 3 maps 0 merges 0 joins 0\n";
    assert!(rt; line_works(&rt, rt.alloc(), line, script, out, work)?);
    Ok(())
}

#[test]
fn a_fault_is_said_behind_the_work(rt: HostRuntime) -> Result<(), AllocError> {
    let alloc = rt.alloc();
    let words = words(alloc, "--job count --tree coalescing --work")?;
    let ran = run(&rt, alloc, words.as_slice(), b"bucket 1\na\nrun\nx\nrun\n")?;
    let said = b"work 1 maps 1 merges 0 joins 0\nfault 4 unknown\n";
    assert!(rt; ran.is(b"# run 1 keys 1\na\t1\n", said, 3));
    Ok(())
}

#[test]
fn workers_and_shards_change_no_byte(rt: HostRuntime) -> Result<(), AllocError> {
    let script = b"bucket 2\na b\nc d a\nrun\nbucket 1\ne f g h\nrun\ndrop 1\nrun\n";
    let out =
        b"# run 1 keys 4\na\t2\nb\t1\nc\t1\nd\t1\n# run 2 keys 8\na\t2\nb\t1\nc\t1\nd\t1\ne\t1\nf\t1\ng\t1\nh\t1\n# run 3 keys 4\ne\t1\nf\t1\ng\t1\nh\t1\n";
    for how in [
        "--parts 4",
        "--workers 4 --parts 4",
        "--workers 4 --shards 8 --parts 4",
        "--workers 16 --shards 3 --keep 1000 --parts 16",
    ] {
        let line = format!(in rt.alloc(); "--job count --tree folding {how}")?;
        assert!(rt;
            line_works(&rt, rt.alloc(), line.as_str(), script, out, b"")?,
            "with {how}"
        );
    }
    Ok(())
}
