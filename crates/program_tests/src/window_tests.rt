//! Scripts over each kind of window, through the program.

use crate::calling::{around, line_gives, run, words};
use std::alloc::{AllocError, Global};
use std::sync::Wait;
use std::thread::Threads;

/// Whether the program, counting words over a tree, writes this to `err` for a script, and nothing to `out`.
fn tree_says<Q: Threads + Wait + Sync>(
    rt: &Q,
    alloc: Global,
    tree: &str,
    script: &[u8],
    err: &[u8],
) -> Result<bool, AllocError> {
    let line = format!(in alloc; "--job count --tree {tree}")?;
    line_gives(rt, alloc, line.as_str(), script, b"", err)
}

#[test]
fn hostile_scripts(rt: HostRuntime) -> Result<(), AllocError> {
    let alloc = rt.alloc();
    for (tree, script, err) in [
        (
            "coalescing",
            b"\n".as_slice(),
            b"fault 1 unknown\n".as_slice(),
        ),
        (
            "coalescing",
            b"bucket 4294967295\n".as_slice(),
            b"fault 1 short\n".as_slice(),
        ),
        (
            "coalescing",
            b"bucket  1\n".as_slice(),
            b"fault 1 unknown\n".as_slice(),
        ),
        (
            "coalescing",
            b"bucket -1\n".as_slice(),
            b"fault 1 number\n".as_slice(),
        ),
        (
            "coalescing",
            b"run\r\n".as_slice(),
            b"fault 1 unknown\n".as_slice(),
        ),
        (
            "rotating",
            b"load 1\n".as_slice(),
            b"fault 1 short\n".as_slice(),
        ),
        (
            "rotating",
            b"load 1\nx\n".as_slice(),
            b"fault 1 nothere\n".as_slice(),
        ),
        (
            "random",
            b"edit 0 0 2\na\n".as_slice(),
            b"fault 1 short\n".as_slice(),
        ),
        (
            "random",
            b"edit 1 0 0\n".as_slice(),
            b"fault 1 many\n".as_slice(),
        ),
        (
            "random",
            b"edit 4294967295 4294967295 0\n".as_slice(),
            b"fault 1 many\n".as_slice(),
        ),
    ] {
        assert!(rt; tree_says(&rt, alloc, tree, script, err)?);
    }
    Ok(())
}

#[test]
fn odd_scripts_are_answered(rt: HostRuntime) -> Result<(), AllocError> {
    let alloc = rt.alloc();
    for (line, script, out) in [
        (
            "--job count --tree coalescing",
            b"bucket 1\nrun\nrun\n".as_slice(),
            b"# run 1 keys 1\nrun\t1\n".as_slice(),
        ),
        (
            "--job count --tree random",
            b"edit 0 0 0\nrun\n".as_slice(),
            b"# run 1 keys 0\n".as_slice(),
        ),
    ] {
        assert!(rt; line_gives(&rt, alloc, line, script, out, b"")?);
    }
    Ok(())
}

#[test]
fn too_many_drops_and_a_foreign_command(rt: HostRuntime) -> Result<(), AllocError> {
    let alloc = rt.alloc();
    for (tree, script, err) in [
        (
            "folding",
            b"bucket 0\nbucket 0\ndrop 3\n".as_slice(),
            b"fault 3 many\n".as_slice(),
        ),
        (
            "rotating",
            b"edit 0 0 0\n".as_slice(),
            b"fault 1 nothere\n".as_slice(),
        ),
        (
            "coalescing",
            b"late 0 0\n".as_slice(),
            b"fault 1 nothere\n".as_slice(),
        ),
    ] {
        assert!(rt; tree_says(&rt, alloc, tree, script, err)?);
    }
    Ok(())
}

#[test]
fn a_circle_forgets_the_oldest_bucket(rt: HostRuntime) -> Result<(), AllocError> {
    assert!(rt;
        line_gives(
            &rt,
            rt.alloc(),
            "--job count --tree rotating --buckets 2",
            b"bucket 1\na\nbucket 1\nb\nbucket 1\nc\nrun\n",
            b"# run 1 keys 2\nb\t1\nc\t1\n",
            b""
        )?
    );
    Ok(())
}

#[test]
fn the_latest_value_wins_through_drops(rt: HostRuntime) -> Result<(), AllocError> {
    assert!(rt;
        line_gives(
            &rt,
            rt.alloc(),
            "--job latest --tree folding",
            b"bucket 1\nk\t1\nbucket 1\nk\t2\nrun\ndrop 1\nrun\nbucket 1\nk\t1\nrun\n",
            b"# run 1 keys 1\nk\t2\n# run 2 keys 1\nk\t2\n# run 3 keys 1\nk\t1\n",
            b""
        )?
    );
    Ok(())
}

#[test]
fn an_edited_document_is_answered(rt: HostRuntime) -> Result<(), AllocError> {
    assert!(rt;
        line_gives(
            &rt,
            rt.alloc(),
            "--job count --tree random",
            b"load 2\na\nb\nrun\nedit 0 1 1\nc\nrun\n",
            b"# run 1 keys 2\na\t1\nb\t1\n# run 2 keys 2\nb\t1\nc\t1\n",
            b""
        )?
    );
    Ok(())
}

#[test]
fn late_records_keep_their_bucket_order(rt: HostRuntime) -> Result<(), AllocError> {
    let script =
        b"bucket 1\nk\t1\nbucket 1\nk\t2\nlate 0 1\nk\t3\nrun\ndrop 0\nlate 1 1\nk\t4\nrun\nlate 2 0\n";
    let out = b"# run 1 keys 1\nk\t2\n# run 2 keys 1\nk\t4\n";
    let line = "--job latest --tree folding";
    assert!(rt; line_gives(&rt, rt.alloc(), line, script, out, b"fault 12 many\n")?);
    Ok(())
}

#[test]
fn files_stand_in_name_order(rt: HostRuntime) -> Result<(), AllocError> {
    let script = b"file b\nload 1\nk\t1\nfile a\nload 1\nk\t2\nrun\nremove b\nrun\n";
    let out = b"# run 1 keys 1\nk\t1\n# run 2 keys 1\nk\t2\n";
    let line = "--job latest --tree random";
    assert!(rt; line_gives(&rt, rt.alloc(), line, script, out, b"")?);
    Ok(())
}

#[test]
fn names_of_files_are_checked(rt: HostRuntime) -> Result<(), AllocError> {
    let alloc = rt.alloc();
    let long = around(alloc, b"file ", b'n', 256, b"\n")?;
    for (tree, script, err) in [
        (
            "random",
            b"file\n".as_slice(),
            b"fault 1 unknown\n".as_slice(),
        ),
        ("random", long.as_slice(), b"fault 1 name\n".as_slice()),
        (
            "folding",
            b"file a\n".as_slice(),
            b"fault 1 nothere\n".as_slice(),
        ),
    ] {
        assert!(rt; tree_says(&rt, alloc, tree, script, err)?);
    }
    let line = "--job count --tree random";
    assert!(rt;
        line_gives(
            &rt,
            alloc,
            line,
            b"remove q\nrun\n",
            b"# run 1 keys 0\n",
            b""
        )?
    );
    Ok(())
}

#[test]
fn parts_are_written_in_one_key_order(rt: HostRuntime) -> Result<(), AllocError> {
    let alloc = rt.alloc();
    for line in [
        "--job count --tree coalescing --parts 16",
        "--job count --tree folding --parts 3",
        "--job count --tree rotating --parts=1",
    ] {
        let script = b"bucket 1\nc b a\nrun\n";
        let out = b"# run 1 keys 3\na\t1\nb\t1\nc\t1\n";
        assert!(rt; line_gives(&rt, alloc, line, script, out, b"")?);
    }
    Ok(())
}

#[test]
fn a_window_is_full(rt: HostRuntime) -> Result<(), AllocError> {
    let alloc = rt.alloc();
    let mut script = Vec::new(alloc);
    for _ in 0..65_537 {
        script.extend_from_slice(b"bucket 0\n")?;
    }
    for line in [
        "--job count --tree coalescing",
        "--job count --tree folding",
    ] {
        let words = words(alloc, line)?;
        let ran = run(&rt, alloc, words.as_slice(), script.as_slice())?;
        assert_eq!(rt; ran.status, 3, "at {line}");
        assert!(rt; ran.out.is_empty());
        assert!(rt; ran.err.as_slice() == b"fault 65537 many\n".as_slice());
    }
    Ok(())
}

#[test]
fn the_generated_script_has_one_summary(rt: HostRuntime) -> Result<(), AllocError> {
    let alloc = rt.alloc();
    let out =
        b"runs 40 bytes 1741990 sha256 636aa9ee010940a82874932f0d1a243e60b196c31bb75e2cfb12f567a3f791c8\n";
    let words = words(alloc, "--gen 7 --job count --tree rotating")?;
    let ran = run(&rt, alloc, words.as_slice(), b"bucket 1\n")?;
    assert!(rt; ran.status == 0 && ran.err.is_empty());
    assert!(rt; ran.out.as_slice() == out.as_slice());
    Ok(())
}
