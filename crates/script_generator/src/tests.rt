//! The scripts compared with those that a Python program wrote by the rules of `docs/formats/generator.md`.
use crate::{Draws, generate};
use program_words::{JobName, Plan, TreeName};
use run_settings::Settings;
use sha2::{Digest, Sha256};
use std::alloc::{AllocError, Global};
use std::test::Fail;

/// A plan with this job and this tree.
fn plan(job: JobName, tree: TreeName) -> Plan {
    Plan {
        job,
        k: 10,
        tree,
        settings: Settings::default(),
        seed: None,
        then: false,
    }
}

/// The length of a script, its number of lines, and its SHA-256 in hexadecimal.
fn summary(alloc: Global, script: &[u8]) -> Result<String, AllocError> {
    let length = script.len();
    let lines = script.iter().filter(|byte| **byte == b'\n').count();
    let mut text = format!(in alloc; "{length} {lines} ")?;
    for byte in Sha256::digest(script) {
        let digits = format!(in alloc; "{byte:02x}")?;
        text.push_str(digits.as_str())?;
    }
    Ok(text)
}

#[test]
fn draws_from_state_eight_are_those_of_python(rt: HostRuntime) {
    let mut draws = Draws::new(8);
    for number in [3244, 2312, 1012, 1307, 1454, 123, 3810, 2691, 4915] {
        assert_eq!(rt; draws.draw(5000), number);
    }
}

#[test]
fn each_job_has_its_first_records(rt: HostRuntime) -> Result<(), Fail> {
    let alloc = rt.alloc();
    let starts = [
        (
            JobName::Count,
            b"bucket 2000\nw3244 w2312 w1012 w1307 w1454 w123 w3810 w2691\nw4915 ".as_slice(),
        ),
        (
            JobName::Index,
            b"bucket 2000\n0\tw3244 w2312 w1012 w1307 w1454 w123 w3810 w2691\n1\tw4915 ".as_slice(),
        ),
        (
            JobName::Latest,
            b"bucket 2000\nk244\tv327312\nk12\tv306307\n".as_slice(),
        ),
        (
            JobName::TopK,
            b"bucket 2000\ng44\t27312\ti12\ng7\t26454\ti123\n".as_slice(),
        ),
    ];
    for (job, start) in starts {
        let script = generate(alloc, &plan(job, TreeName::Coalescing), 7)?;
        assert!(rt; script.as_slice().starts_with(start), "{job:?}");
    }
    Ok(())
}

#[test]
fn each_tree_has_its_first_and_last_commands(rt: HostRuntime) -> Result<(), Fail> {
    let alloc = rt.alloc();
    let ends = [
        (
            TreeName::Folding,
            b"bucket 2000\nw3244 ".as_slice(),
            b"\nw2465 w3257 w3107 w1934 w4232 w579 w4974 w4606\nrun\n".as_slice(),
        ),
        (
            TreeName::Rotating,
            b"bucket 2000\nw3244 ".as_slice(),
            b"\nw2465 w3257 w3107 w1934 w4232 w579 w4974 w4606\nrun\n".as_slice(),
        ),
        (
            TreeName::Coalescing,
            b"bucket 2000\nw3244 ".as_slice(),
            b"\nw2465 w3257 w3107 w1934 w4232 w579 w4974 w4606\nrun\n".as_slice(),
        ),
        (
            TreeName::Random,
            b"load 40000\nw3244 ".as_slice(),
            b"\nw3784 w32 w1302 w4541 w42 w2684 w3074 w3827\nrun\n".as_slice(),
        ),
    ];
    for (tree, first, last) in ends {
        let script = generate(alloc, &plan(JobName::Count, tree), 7)?;
        assert!(rt; script.as_slice().starts_with(first), "{tree:?}");
        assert!(rt; script.as_slice().ends_with(last), "{tree:?}");
    }
    Ok(())
}

#[test]
fn scripts_have_the_digests_of_python(rt: HostRuntime) -> Result<(), Fail> {
    let alloc = rt.alloc();
    let rows = [
        (
            JobName::Count,
            TreeName::Rotating,
            7,
            "3698585 80080 a64b2977ddb1bec48cd3578a0c507a08722f6ace7c8eb8156280f53bafda8dea",
        ),
        (
            JobName::Index,
            TreeName::Random,
            7,
            "2119676 40860 6108bc631f0bd199459a3d3120356cbaceda49ebfddeab2d29602f9d4ee326f5",
        ),
        (
            JobName::Latest,
            TreeName::Folding,
            4294967295,
            "1067809 80096 9c6b7733097612e30884875614d46864b66341030e19b3f8c4406dc977c41f2d",
        ),
        (
            JobName::TopK,
            TreeName::Coalescing,
            0,
            "1211360 80080 c86031ee82d24bf320d8ee752c23de358b3c442f741d1cee12eb2f2d93fc122b",
        ),
    ];
    for (job, tree, seed, expected) in rows {
        let script = generate(alloc, &plan(job, tree), seed)?;
        let found = summary(alloc, script.as_slice())?;
        assert_eq!(rt; found.as_str(), expected, "{job:?} {tree:?} {seed}");
    }
    Ok(())
}
