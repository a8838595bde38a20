//! Tests of arguments, with plans and usage lines written by hand.

use crate::options::read_words;
use crate::plan::{JobName, Plan, TreeName};
use crate::usage::{WordsFault, line_of_usage};
use run_settings::Settings;
use std::alloc::{AllocError, Global};

/// What the arguments ask for, or the line that they are refused with.
fn answer(alloc: Global, words: &[String]) -> Result<Result<Plan, &'static [u8]>, AllocError> {
    match read_words(alloc, words) {
        Ok(plan) => Ok(Ok(plan)),
        Err(WordsFault::Usage(field)) => Ok(Err(line_of_usage(field))),
        Err(WordsFault::Mem) => Err(AllocError),
    }
}

/// What the arguments in a line, split at its spaces, ask for, or the line that they are refused with.
fn read(alloc: Global, line: &str) -> Result<Result<Plan, &'static [u8]>, AllocError> {
    let mut words = Vec::new(alloc);
    for word in line.split(' ') {
        words.push(String::from_str(alloc, word)?)?;
    }
    answer(alloc, words.as_slice())
}

/// Whether the arguments in a line are refused with this line.
fn refuses(alloc: Global, line: &str, usage: &[u8]) -> Result<bool, AllocError> {
    match read(alloc, line)? {
        Ok(_) => Ok(false),
        Err(said) => Ok(said == usage),
    }
}

/// Whether the arguments in a line ask for this, and otherwise for defaults.
fn asks(
    alloc: Global,
    line: &str,
    job: JobName,
    k: u32,
    tree: TreeName,
    places: u32,
) -> Result<bool, AllocError> {
    let settings = Settings {
        parts: 1,
        workers: 1,
        shards: 1,
        keep: 1,
        places,
        work: false,
        split: false,
        steal: false,
    };
    let plan = Plan {
        job,
        k,
        tree,
        settings,
        seed: None,
        then: false,
    };
    match read(alloc, line)? {
        Ok(read) => Ok(read == plan),
        Err(_) => Ok(false),
    }
}

#[test]
fn each_refused_word_has_its_usage(rt: HostRuntime) -> Result<(), AllocError> {
    let alloc = rt.alloc();
    let words = Vec::new(alloc);
    let none = answer(alloc, words.as_slice())?;
    assert!(rt; none == Err(b"usage job\n".as_slice()));
    assert!(rt; refuses(alloc, "--job=count", b"usage tree\n")?);
    assert!(rt;
        refuses(
            alloc,
            "--job count --tree folding --parts 17",
            b"usage parts\n"
        )?
    );
    assert!(rt;
        refuses(
            alloc,
            "--job count --tree folding --gen seven",
            b"usage gen\n"
        )?
    );
    for line in ["--job count --job count --tree folding", "x", "--tree="] {
        assert!(rt; refuses(alloc, line, b"usage words\n")?);
    }
    Ok(())
}

#[test]
fn the_pairing_of_latest_and_rotating_is_refused_last(rt: HostRuntime) -> Result<(), AllocError> {
    let alloc = rt.alloc();
    let pair = "--job latest --tree rotating";
    assert!(rt; refuses(alloc, pair, b"usage tree\n")?);
    let bare = "--job latest --tree rotating --buckets 0";
    assert!(rt; refuses(alloc, bare, b"usage buckets\n")?);
    Ok(())
}

#[test]
fn each_name_is_in_its_table(rt: HostRuntime) -> Result<(), AllocError> {
    let alloc = rt.alloc();
    for (line, job, tree) in [
        (
            "--job count --tree folding",
            JobName::Count,
            TreeName::Folding,
        ),
        (
            "--job index --tree random",
            JobName::Index,
            TreeName::Random,
        ),
        (
            "--job topk --tree rotating",
            JobName::TopK,
            TreeName::Rotating,
        ),
        (
            "--job latest --tree coalescing",
            JobName::Latest,
            TreeName::Coalescing,
        ),
        (
            "--job latest --tree folding",
            JobName::Latest,
            TreeName::Folding,
        ),
        (
            "--job index --tree rotating",
            JobName::Index,
            TreeName::Rotating,
        ),
    ] {
        assert!(rt; asks(alloc, line, job, 10, tree, 24)?);
    }
    assert!(rt; refuses(alloc, "--job Count --tree folding", b"usage job\n")?);
    assert!(rt; refuses(alloc, "--job counts --tree folding", b"usage job\n")?);
    assert!(rt; refuses(alloc, "--job count --tree fold", b"usage tree\n")?);
    Ok(())
}

#[test]
fn both_forms_stand_in_any_order(rt: HostRuntime) -> Result<(), AllocError> {
    let alloc = rt.alloc();
    for line in [
        "--job topk --k 3 --tree rotating --buckets 7",
        "--job=topk --k=3 --tree=rotating --buckets=7",
        "--buckets 7 --tree=rotating --k 3 --job=topk",
        "--tree rotating --job=topk --buckets=7 --k 3",
    ] {
        assert!(rt; asks(alloc, line, JobName::TopK, 3, TreeName::Rotating, 7)?);
    }
    Ok(())
}

#[test]
fn numbers_stand_within_their_limits(rt: HostRuntime) -> Result<(), AllocError> {
    let alloc = rt.alloc();
    for (line, k, places) in [
        ("--job topk --tree rotating --k 1", 1, 24),
        ("--job topk --tree rotating --k=1000", 1000, 24),
        ("--job topk --tree rotating --buckets 1", 10, 1),
        ("--job topk --tree rotating --buckets=4096", 10, 4096),
    ] {
        assert!(rt; asks(alloc, line, JobName::TopK, k, TreeName::Rotating, places)?);
    }
    for line in [
        "--job topk --tree folding --k 0",
        "--job topk --tree folding --k 1001",
        "--job topk --tree folding --k 01",
        "--job topk --tree folding --k +1",
        "--job topk --tree folding --k 1x",
        "--job topk --tree folding --k 4294967297",
        "--job topk --tree folding --k 18446744073709551617",
        "--job count --tree folding --k 0",
    ] {
        assert!(rt; refuses(alloc, line, b"usage k\n")?);
    }
    for line in [
        "--job count --tree rotating --buckets 0",
        "--job count --tree rotating --buckets 4097",
        "--job count --tree folding --buckets 4097",
    ] {
        assert!(rt; refuses(alloc, line, b"usage buckets\n")?);
    }
    for line in [
        "--job count --tree folding --parts 0",
        "--job count --tree folding --parts=17",
        "--job count --tree folding --parts 016",
    ] {
        assert!(rt; refuses(alloc, line, b"usage parts\n")?);
    }
    for line in [
        "--job count --tree folding --workers 0",
        "--job count --tree folding --workers=17",
        "--job count --tree folding --workers two",
    ] {
        assert!(rt; refuses(alloc, line, b"usage workers\n")?);
    }
    for line in [
        "--job count --tree folding --shards 0",
        "--job count --tree folding --shards=9",
        "--job count --tree folding --shards 1.0",
    ] {
        assert!(rt; refuses(alloc, line, b"usage shards\n")?);
    }
    for line in [
        "--job count --tree folding --keep 1001",
        "--job count --tree folding --keep=00",
        "--job count --tree folding --keep=-1",
        "--job count --tree folding --keep 4294967296",
    ] {
        assert!(rt; refuses(alloc, line, b"usage keep\n")?);
    }
    for line in [
        "--job count --tree folding --gen 4294967296",
        "--job count --tree folding --gen=-1",
        "--job count --tree folding --gen 00",
    ] {
        assert!(rt; refuses(alloc, line, b"usage gen\n")?);
    }
    Ok(())
}

/// The parts and the seed that the arguments in a line ask for.
fn parts_and_seed(alloc: Global, line: &str) -> Result<Option<(u32, Option<u32>)>, AllocError> {
    match read(alloc, line)? {
        Ok(plan) => Ok(Some((plan.settings.parts, plan.seed))),
        Err(_) => Ok(None),
    }
}

#[test]
fn parts_and_seeds_stand_in_the_plan(rt: HostRuntime) -> Result<(), AllocError> {
    let alloc = rt.alloc();
    for (line, parts, seed) in [
        ("--job count --tree folding", 1, None),
        ("--job count --tree folding --parts 16", 16, None),
        ("--job count --tree folding --parts=2 --gen 0", 2, Some(0)),
        (
            "--gen=4294967295 --job count --tree folding",
            1,
            Some(4294967295),
        ),
    ] {
        assert!(rt; parts_and_seed(alloc, line)? == Some((parts, seed)));
    }
    Ok(())
}

/// The workers, shards and runs kept that the arguments in a line ask for, and whether they ask for work lines.
fn ways_of_working(alloc: Global, line: &str) -> Result<Option<(u32, u32, u32, bool)>, AllocError> {
    match read(alloc, line)? {
        Ok(plan) => {
            let Settings {
                workers,
                shards,
                keep,
                work,
                ..
            } = plan.settings;
            Ok(Some((workers, shards, keep, work)))
        }
        Err(_) => Ok(None),
    }
}

#[test]
fn ways_of_working_stand_in_the_plan(rt: HostRuntime) -> Result<(), AllocError> {
    let alloc = rt.alloc();
    for (line, ways) in [
        ("--job count --tree folding", (1, 1, 1, false)),
        ("--job count --tree folding --workers 1", (1, 1, 1, false)),
        ("--job count --tree folding --workers=16", (16, 1, 1, false)),
        ("--job count --tree folding --shards=1", (1, 1, 1, false)),
        ("--job count --tree folding --shards 8", (1, 8, 1, false)),
        ("--job count --tree folding --keep 0", (1, 1, 0, false)),
        ("--job count --tree folding --keep=1", (1, 1, 1, false)),
        (
            "--keep 1000 --job count --tree folding",
            (1, 1, 1000, false),
        ),
        (
            "--keep=2 --job count --shards 3 --tree folding --workers 4 --work",
            (4, 3, 2, true),
        ),
    ] {
        assert!(rt; ways_of_working(alloc, line)? == Some(ways));
    }
    Ok(())
}

#[test]
fn the_flag_stands_anywhere_once_and_alone(rt: HostRuntime) -> Result<(), AllocError> {
    let alloc = rt.alloc();
    for line in [
        "--work --job count --tree folding",
        "--job count --work --tree folding",
        "--job=count --work --tree=folding",
        "--job count --tree folding --work",
    ] {
        assert!(rt; ways_of_working(alloc, line)? == Some((1, 1, 1, true)));
    }
    for line in [
        "--work --work --job count --tree folding",
        "--work --job count --tree folding --work",
        "--work=1 --job count --tree folding",
        "--job count --tree folding --work=true",
        "--job count --tree folding --work=",
        "--job count --tree folding --work 1",
        "--job count --tree folding --work true",
        "--job --work count --tree folding",
        "--job count --tree folding --k --work",
        "--job count --tree folding -work",
        "--job count --tree folding --Work",
        "--job count --tree folding --wor",
    ] {
        assert!(rt; refuses(alloc, line, b"usage words\n")?);
    }
    let value = "--job=--work --tree folding";
    assert!(rt; refuses(alloc, value, b"usage job\n")?);
    assert!(rt; refuses(alloc, "--work", b"usage job\n")?);
    Ok(())
}

#[test]
fn a_value_in_its_options_word_may_have_any_bytes(rt: HostRuntime) -> Result<(), AllocError> {
    let alloc = rt.alloc();
    assert!(rt; refuses(alloc, "--job count --tree folding --k=-3", b"usage k\n")?);
    assert!(rt; refuses(alloc, "--job count --tree folding --k -3", b"usage words\n")?);
    for line in [
        "--job=- --tree folding",
        "--job=-- --tree folding",
        "--job=a=b --tree folding",
        "--job a=b --tree folding",
        "--job==count --tree folding",
    ] {
        assert!(rt; refuses(alloc, line, b"usage job\n")?);
    }
    Ok(())
}

#[test]
fn words_that_are_not_well_formed(rt: HostRuntime) -> Result<(), AllocError> {
    let alloc = rt.alloc();
    for line in [
        "",
        "-",
        "--",
        "--=",
        "--=count",
        "=",
        "count",
        "--job count --tree folding --",
        "--job count --tree folding -",
        "--job count --tree folding x",
        "--job count --tree folding --k",
        "--job  --tree folding",
        "--job --tree folding",
        "--job count= --tree folding",
        "--job=count= --tree folding",
        "--job= --tree folding",
        "--job count -- --tree folding",
        "--tree=folding --job count --tree folding",
        "--tree folding --job count --tree=random",
        "--job count --tree folding --help",
        "--job count --tree folding -h",
        "--version",
        "--jobs count --tree folding",
        "--jo count --tree folding",
        "-job count --tree folding",
        "--Job count --tree folding",
        "---job count --tree folding",
        "--job count --tree folding --worker 2",
        "--job count --tree folding --works",
        "--job count --tree folding --split",
        "--job count --tree folding --workers",
        "--job count --tree folding --shards --keep 1",
        "--job count --tree folding --keep=",
        "--keep 1 --job count --tree folding --keep=1",
        "--shards=2 --shards=2 --job count --tree folding",
        "--workers 1 --workers 1 --job count --tree folding",
        "--job count --tree folding --gen=",
        "--gen 1 --job count --tree folding --gen=1",
        "--job count --tree folding --seed 1",
    ] {
        assert!(rt; refuses(alloc, line, b"usage words\n")?);
    }
    Ok(())
}

#[test]
fn the_first_refusal_in_order_is_said(rt: HostRuntime) -> Result<(), AllocError> {
    let alloc = rt.alloc();
    for (line, usage) in [
        (
            "--buckets 0 --tree x --k 0 --job x y",
            b"usage words\n".as_slice(),
        ),
        (
            "--buckets 0 --tree x --k 0 --job x",
            b"usage job\n".as_slice(),
        ),
        ("--buckets 0 --tree x --k 0", b"usage job\n".as_slice()),
        (
            "--buckets 0 --tree x --k 0 --job count",
            b"usage k\n".as_slice(),
        ),
        (
            "--buckets 0 --tree x --k 1 --job count",
            b"usage tree\n".as_slice(),
        ),
        ("--buckets 0 --job count", b"usage tree\n".as_slice()),
        (
            "--gen x --parts 0 --buckets 0 --tree random --job count",
            b"usage buckets\n".as_slice(),
        ),
        (
            "--gen x --keep x --shards 0 --workers 0 --parts 0 --tree random --job count",
            b"usage parts\n".as_slice(),
        ),
        (
            "--gen x --keep x --shards 0 --workers 0 --tree random --job count",
            b"usage workers\n".as_slice(),
        ),
        (
            "--gen x --keep x --shards 0 --tree random --job count",
            b"usage shards\n".as_slice(),
        ),
        (
            "--gen x --keep x --tree random --job count",
            b"usage keep\n".as_slice(),
        ),
        (
            "--keep x --work x --job count --tree random",
            b"usage words\n".as_slice(),
        ),
        (
            "--keep x --work --job latest --tree rotating",
            b"usage keep\n".as_slice(),
        ),
        (
            "--gen x --job latest --tree rotating",
            b"usage gen\n".as_slice(),
        ),
    ] {
        assert!(rt; refuses(alloc, line, usage)?);
    }
    Ok(())
}
