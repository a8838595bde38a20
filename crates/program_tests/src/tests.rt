//! Single scripts, over devices in memory: the smallest ones, the limits of form, and refused arguments.

use crate::calling::{around, gives, run, words};
use std::alloc::AllocError;

#[test]
fn one_bucket_is_counted(rt: HostRuntime) -> Result<(), AllocError> {
    assert!(rt;
        gives(
            &rt,
            rt.alloc(),
            b"bucket 1\na b a\nrun\n",
            b"# run 1 keys 2\na\t2\nb\t1\n",
            b"",
            0
        )?
    );
    Ok(())
}

#[test]
fn an_empty_script_writes_nothing(rt: HostRuntime) -> Result<(), AllocError> {
    assert!(rt; gives(&rt, rt.alloc(), b"", b"", b"", 0)?);
    Ok(())
}

#[test]
fn a_run_over_nothing_has_no_keys(rt: HostRuntime) -> Result<(), AllocError> {
    assert!(rt; gives(&rt, rt.alloc(), b"run\n", b"# run 1 keys 0\n", b"", 0)?);
    Ok(())
}

#[test]
fn a_later_run_counts_all_buckets(rt: HostRuntime) -> Result<(), AllocError> {
    let script = b"bucket 2\nto be or not\nTo be, 2b\nrun\nbucket 0\nbucket 1\nbe\nrun\n";
    let out =
        b"# run 1 keys 6\n2b\t1\nTo\t1\nbe\t2\nnot\t1\nor\t1\nto\t1\n# run 2 keys 6\n2b\t1\nTo\t1\nbe\t3\nnot\t1\nor\t1\nto\t1\n";
    assert!(rt; gives(&rt, rt.alloc(), script, out, b"", 0)?);
    Ok(())
}

#[test]
fn a_short_script_stops_after_its_runs(rt: HostRuntime) -> Result<(), AllocError> {
    assert!(rt;
        gives(
            &rt,
            rt.alloc(),
            b"run\nbucket 2\nb\n",
            b"# run 1 keys 0\n",
            b"fault 2 short\n",
            3
        )?
    );
    assert!(rt;
        gives(
            &rt,
            rt.alloc(),
            b"bucket 4294967295\n",
            b"",
            b"fault 1 short\n",
            3
        )?
    );
    Ok(())
}

#[test]
fn a_last_line_without_lf_and_a_long_record(rt: HostRuntime) -> Result<(), AllocError> {
    let alloc = rt.alloc();
    assert!(rt;
        gives(
            &rt,
            rt.alloc(),
            b"bucket 1\na\nrun",
            b"# run 1 keys 1\na\t1\n",
            b"",
            0
        )?
    );
    let longest = around(alloc, b"bucket 1\n", b'-', 65535, b"\nrun\n")?;
    assert!(rt;
        gives(
            &rt,
            rt.alloc(),
            longest.as_slice(),
            b"# run 1 keys 0\n",
            b"",
            0
        )?
    );
    let longer = around(alloc, b"bucket 1\n", b'-', 65536, b"\nrun\n")?;
    assert!(rt;
        gives(
            &rt,
            rt.alloc(),
            longer.as_slice(),
            b"",
            b"fault 2 long\n",
            3
        )?
    );
    Ok(())
}

#[test]
fn numbers_and_words_are_exact(rt: HostRuntime) -> Result<(), AllocError> {
    for script in [
        "bucket",
        "",
        "run ",
        "bucket  1",
        "run\r",
        "drop 1 2",
        "Run",
    ] {
        let mut line = Vec::from_slice(rt.alloc(), script.as_bytes())?;
        line.push(b'\n')?;
        assert!(rt;
            gives(
                &rt,
                rt.alloc(),
                line.as_slice(),
                b"",
                b"fault 1 unknown\n",
                3
            )?,
            "at {script}"
        );
    }
    for script in [
        "bucket 01",
        "bucket -1",
        "bucket 4294967296",
        "drop 4294967296",
        "bucket 1x",
    ] {
        assert!(rt;
            gives(
                &rt,
                rt.alloc(),
                script.as_bytes(),
                b"",
                b"fault 1 number\n",
                3
            )?,
            "at {script}"
        );
    }
    assert!(rt;
        gives(
            &rt,
            rt.alloc(),
            b"bucket 1\nrun\nrun\n",
            b"# run 1 keys 1\nrun\t1\n",
            b"",
            0
        )?
    );
    Ok(())
}

#[test]
fn each_refused_word_has_its_usage(rt: HostRuntime) -> Result<(), AllocError> {
    let none = Vec::new(rt.alloc());
    let ran = run(&rt, rt.alloc(), none.as_slice(), b"run\n")?;
    assert!(rt; ran.status == 2 && ran.out.is_empty());
    assert!(rt; ran.err.as_slice() == b"usage job\n".as_slice());
    for (line, usage) in [
        ("", "usage words\n"),
        ("--job=count", "usage tree\n"),
        ("x", "usage words\n"),
        ("--tree=", "usage words\n"),
        ("--job count --job count --tree folding", "usage words\n"),
        ("--job count --tree folding --parts 17", "usage parts\n"),
        ("--job count --tree folding --workers 17", "usage workers\n"),
        ("--job count --tree folding --shards 9", "usage shards\n"),
        ("--job count --tree folding --keep 1001", "usage keep\n"),
        ("--job count --tree folding --work=1", "usage words\n"),
        ("--job count --tree folding --gen x", "usage gen\n"),
        ("--job count --tree coalescing x", "usage words\n"),
        ("--job sum --tree coalescing", "usage job\n"),
        ("--job count --trees coalescing", "usage words\n"),
        ("--job count --tree rope", "usage tree\n"),
        ("--job topk --k 0 --tree coalescing", "usage k\n"),
        ("--job topk --k 1001 --tree coalescing", "usage k\n"),
        ("--job count --tree rotating --buckets 0", "usage buckets\n"),
        (
            "--job count --tree rotating --buckets 4097",
            "usage buckets\n",
        ),
        ("--job latest --tree rotating", "usage tree\n"),
    ] {
        let words = words(rt.alloc(), line)?;
        let ran = run(&rt, rt.alloc(), words.as_slice(), b"run\n")?;
        assert_eq!(rt; ran.status, 2, "at {line}");
        assert!(rt; ran.out.is_empty());
        assert!(rt; ran.err.as_slice() == usage.as_bytes());
    }
    Ok(())
}
