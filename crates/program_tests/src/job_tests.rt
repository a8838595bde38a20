//! The four jobs, through the program.

use crate::calling::line_gives;
use std::alloc::AllocError;

#[test]
fn an_index_lists_documents_and_refuses_a_large_number(rt: HostRuntime) -> Result<(), AllocError> {
    let line = "--job index --tree coalescing";
    assert!(rt;
        line_gives(
            &rt,
            rt.alloc(),
            line,
            b"bucket 2\n7\tcat dog cat\n4294967295\tcat\nrun\n",
            b"# run 1 keys 2\ncat\t7,4294967295\ndog\t7\n",
            b""
        )?
    );
    assert!(rt;
        line_gives(
            &rt,
            rt.alloc(),
            line,
            b"bucket 1\n4294967296\tcat",
            b"",
            b"fault 2 record\n"
        )?
    );
    Ok(())
}

#[test]
fn documents_of_many_buckets_rise(rt: HostRuntime) -> Result<(), AllocError> {
    let script =
        b"bucket 1\n9\tb a\nbucket 2\n3\ta\tb\n9\ta\nrun\nbucket 1\n0\t\nbucket 1\n5\ta\nrun\n";
    let out = b"# run 1 keys 2\na\t3,9\nb\t3,9\n# run 2 keys 2\na\t3,5,9\nb\t3,9\n";
    assert!(rt;
        line_gives(
            &rt,
            rt.alloc(),
            "--job index --tree coalescing",
            script,
            out,
            b""
        )?
    );
    Ok(())
}

#[test]
fn top_k_keeps_repeated_pairs(rt: HostRuntime) -> Result<(), AllocError> {
    let script = b"bucket 3\ng\t5\tb\ng\t5\ta\ng\t5\ta\nrun\n";
    assert!(rt;
        line_gives(
            &rt,
            rt.alloc(),
            "--job topk --k 2 --tree coalescing",
            script,
            b"# run 1 keys 1\ng\t5\ta\ng\t5\ta\n",
            b""
        )?
    );
    assert!(rt;
        line_gives(
            &rt,
            rt.alloc(),
            "--job topk --k 1 --tree coalescing",
            script,
            b"# run 1 keys 1\ng\t5\ta\n",
            b""
        )?
    );
    assert!(rt;
        line_gives(
            &rt,
            rt.alloc(),
            "--job topk --k 1000 --tree coalescing",
            script,
            b"# run 1 keys 1\ng\t5\ta\ng\t5\ta\ng\t5\tb\n",
            b""
        )?
    );
    Ok(())
}

#[test]
fn topk_keeps_ten_unless_told(rt: HostRuntime) -> Result<(), AllocError> {
    let script =
        b"bucket 11\ng\t1\ti\ng\t2\ti\ng\t3\ti\ng\t4\ti\ng\t5\ti\ng\t6\ti\ng\t7\ti\ng\t8\ti\ng\t9\ti\ng\t10\ti\ng\t11\ti\nrun\n";
    let out =
        b"# run 1 keys 1\ng\t11\ti\ng\t10\ti\ng\t9\ti\ng\t8\ti\ng\t7\ti\ng\t6\ti\ng\t5\ti\ng\t4\ti\ng\t3\ti\ng\t2\ti\n";
    assert!(rt;
        line_gives(
            &rt,
            rt.alloc(),
            "--job topk --tree coalescing",
            script,
            out,
            b""
        )?
    );
    Ok(())
}

#[test]
fn the_latest_value_wins(rt: HostRuntime) -> Result<(), AllocError> {
    let script =
        b"bucket 1\nk\t1\nbucket 1\nk\t2\nrun\nbucket 2\nj\tx\ty\nk\t1\nrun\nbucket 1\nk\t\nrun\n";
    let out =
        b"# run 1 keys 1\nk\t2\n# run 2 keys 2\nj\tx\ty\nk\t1\n# run 3 keys 2\nj\tx\ty\nk\t\n";
    assert!(rt;
        line_gives(
            &rt,
            rt.alloc(),
            "--job latest --tree coalescing",
            script,
            out,
            b""
        )?
    );
    Ok(())
}

#[test]
fn a_record_that_is_not_accepted_is_a_fault_at_its_line(rt: HostRuntime) -> Result<(), AllocError> {
    for (line, script, fault) in [
        (
            "--job latest --tree coalescing",
            b"run\nbucket 3\nk\t1\nk\nl\nrun\n".as_slice(),
            b"fault 4 record\n".as_slice(),
        ),
        (
            "--job latest --tree coalescing",
            b"run\nbucket 1\n\t1\n",
            b"fault 3 record\n",
        ),
        (
            "--job latest --tree coalescing",
            b"run\nbucket 2\nk\n",
            b"fault 2 short\n",
        ),
        (
            "--job topk --tree coalescing",
            b"run\nbucket 2\ng\t4294967295\ti\ng\t4294967296\ti\n",
            b"fault 4 record\n",
        ),
        (
            "--job topk --tree coalescing",
            b"run\nbucket 1\ng\t1\n",
            b"fault 3 record\n",
        ),
        (
            "--job index --tree coalescing",
            b"run\nbucket 2\n07\ta\nrun\n",
            b"fault 3 record\n",
        ),
    ] {
        assert!(rt;
            line_gives(&rt, rt.alloc(), line, script, b"# run 1 keys 0\n", fault)?,
            "at {line}"
        );
    }
    Ok(())
}
