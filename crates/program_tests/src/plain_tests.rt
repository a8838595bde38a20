//! The program compared with the plain one, over scripts that are made from numbers.

use crate::calling::{run, run_plainly, words};
use std::alloc::{AllocError, Global};
use std::sync::Wait;
use std::thread::Threads;

/// The pieces that scripts are made of: whole commands, commands that take the next lines as records, and broken lines.
const PIECES: [&[u8]; 16] = [
    b"run\n",
    b"run\n",
    b"run\n",
    b"bucket 0\n",
    b"bucket 1\na b a\n",
    b"bucket 1\n\n",
    b"bucket 2\nb,c\nB a\n",
    b"bucket 3\nzz y\n- -\nzz\n",
    b"bucket 2\nabc ab a\n",
    b"bucket 2\nc\n",
    b"bucket 1\nrun\n",
    b"bucket 1\na\xff9 \r\n",
    b"bucket 4\nrun\n",
    b"bucket 01\n",
    b"bucket\n",
    b"stop\n",
];

/// A script of a number of pieces, drawn by a linear congruential generator modulo 2^64.
fn script_from(alloc: Global, seed: u64, pieces: usize, kinds: u64) -> Result<Vec<u8>, AllocError> {
    let mut script = Vec::new(alloc);
    let mut state = seed.wrapping_add(1);
    for _ in 0..pieces {
        state = state
            .wrapping_mul(6364136223846793005)
            .wrapping_add(1442695040888963407);
        let drawn = (state >> 33) % kinds.clamp(1, 16);
        script.extend_from_slice(PIECES[drawn as usize])?;
    }
    Ok(script)
}

/// Whether the program, called with these options, counts the words of a script as the plain one does.
fn counts_alike<Q: Threads + Wait + Sync>(
    rt: &Q,
    alloc: Global,
    options: &str,
    script: &[u8],
) -> Result<bool, AllocError> {
    let line = format!(in alloc; "--job count --tree coalescing{options}")?;
    let words = words(alloc, line.as_str())?;
    let real = run(rt, alloc, words.as_slice(), script)?;
    let plain = run_plainly(alloc, words.as_slice(), script)?;
    Ok(real == plain)
}

#[test]
fn scripts_are_answered_as_by_the_plain_program(rt: HostRuntime) -> Result<(), AllocError> {
    for seed in 0..40u64 {
        let script = script_from(rt.alloc(), seed, 24, 12)?;
        assert!(rt; counts_alike(&rt, rt.alloc(), "", script.as_slice())?);
    }
    Ok(())
}

#[test]
fn scripts_with_broken_lines_end_as_in_the_plain_program(
    rt: HostRuntime,
) -> Result<(), AllocError> {
    for seed in 0..40u64 {
        let script = script_from(rt.alloc(), seed, 12, 16)?;
        assert!(rt; counts_alike(&rt, rt.alloc(), "", script.as_slice())?);
    }
    Ok(())
}

#[test]
fn scripts_are_answered_alike_by_many_workers(rt: HostRuntime) -> Result<(), AllocError> {
    for options in [
        " --workers 4 --parts 5",
        " --workers 16 --shards 8 --parts 16",
        " --workers 2 --shards 3 --keep 0",
    ] {
        for seed in 40..48u64 {
            let script = script_from(rt.alloc(), seed, 12, 12)?;
            assert!(rt;
                counts_alike(&rt, rt.alloc(), options, script.as_slice())?,
                "with{options}"
            );
        }
    }
    Ok(())
}
