//! Tests over the tree of a circle: what single runs count, runs that are out of memory, walks, and a script.

use crate::desk::{Jobs, settings};
use crate::refusing::Refusing;
use crate::steps::Step::{self, Bucket, Fails, Insists, Late, Run, Script, Walk};
use crate::steps::plays;
use job_laws::CountMeter;
use rotating_tree::RotatingTree;
use run_engine::Settings;
use std::alloc::{AllocError, Global};
use std::sync::Wait;
use std::test::Fail;
use std::thread::Threads;

type Counting = Refusing<CountMeter>;

// How many of the steps passed over a circle before one failed. Locks start at `start`, and the job refuses call `refused`,
// or none at 0. No other function sees this tree, since a proof that does is long.
fn passed<R: Threads + Wait + Sync>(
    rt: &R,
    alloc: Global,
    start: u64,
    refused: u64,
    settings: Settings,
    steps: &[Step],
) -> Result<usize, AllocError> {
    let jobs = Jobs::new(alloc, Refusing::new(refused), Refusing::new(0))?;
    plays::<Counting, RotatingTree<Counting>, R>(rt, alloc, start, jobs, settings, steps)
}

#[test]
fn one_bucket_in_five_takes_three_merges(rt: HostRuntime) -> Result<(), Fail> {
    let steps = [
        Bucket("a"),
        Bucket("b"),
        Bucket("c"),
        Bucket("d"),
        Bucket("e"),
        Run(5, 4, 0),
        Bucket("f"),
        Run(1, 3, 0),
    ];
    assert_eq!(rt;
        passed(&rt, rt.alloc(), 0, 0, settings(1, 1, 1, 5), &steps)?,
        8
    );
    Ok(())
}

#[test]
fn a_late_record_changes_one_path_of_a_circle(rt: HostRuntime) -> Result<(), Fail> {
    let steps = [
        Bucket("a"),
        Bucket("b"),
        Bucket("c"),
        Run(3, 2, 0),
        Late(0, "a"),
        Run(2, 2, 0),
    ];
    assert_eq!(rt;
        passed(&rt, rt.alloc(), 0, 0, settings(1, 1, 1, 8), &steps)?,
        6
    );
    Ok(())
}

#[test]
fn equal_leaves_of_a_circle_are_mapped_once(rt: HostRuntime) -> Result<(), Fail> {
    let steps = [
        Bucket("a b,c"),
        Bucket("a b,c"),
        Bucket("a b,c"),
        Bucket("a b,c"),
        Run(2, 2, 6),
        Bucket("d"),
        Bucket("e"),
        Bucket("f"),
        Bucket("a b,c"),
        Run(3, 3, 0),
    ];
    assert_eq!(rt;
        passed(&rt, rt.alloc(), 0, 0, settings(4, 2, 1, 5), &steps)?,
        10
    );
    Ok(())
}

// Through locks that are worn from the start or after one turn no merge is found again, but a lane has its texts without
// them.
#[test]
fn a_worn_memo_merges_equal_tables_of_a_circle_again(rt: HostRuntime) -> Result<(), Fail> {
    for (start, first) in [
        (0, Run(1, 2, 2)),
        ((1 << 62) - 1, Run(1, 3, 3)),
        (1 << 62, Run(1, 3, 3)),
    ] {
        let steps = [
            Bucket("a"),
            Bucket("a"),
            Bucket("a"),
            Bucket("a"),
            first,
            Bucket("b"),
            Run(1, 2, 1),
        ];
        let went = passed(&rt, rt.alloc(), start, 0, settings(1, 1, 1, 4), &steps)?;
        assert_eq!(rt; went, 7, "from {start}");
    }
    Ok(())
}

// Four records are mapped, each in a lane of its own, and `a` is joined three times. The second run finds all that the
// first one stored.
#[test]
fn a_failed_run_over_a_circle_can_run_again(rt: HostRuntime) -> Result<(), Fail> {
    for (refused, again) in [
        (1, Run(1, 3, 3)),
        (4, Run(1, 3, 3)),
        (5, Run(0, 3, 3)),
        (6, Run(0, 2, 2)),
        (7, Run(0, 1, 1)),
    ] {
        let steps = [
            Bucket("a"),
            Bucket("a b"),
            Bucket("a c"),
            Bucket("a e"),
            Fails,
            again,
        ];
        let went = passed(&rt, rt.alloc(), 0, refused, settings(1, 1, 1, 4), &steps)?;
        assert_eq!(rt; went, 6, "at call {refused}");
    }
    Ok(())
}

// The first run maps and joins as above. The next one maps a record, and makes the two merges over its place.
#[test]
fn a_failed_run_leaves_the_roots_of_a_circle(rt: HostRuntime) -> Result<(), Fail> {
    for (refused, again) in [(8, Run(1, 2, 2)), (9, Run(0, 2, 2)), (10, Run(0, 1, 1))] {
        let steps = [
            Bucket("a"),
            Bucket("a b"),
            Bucket("a c"),
            Bucket("a e"),
            Run(4, 3, 3),
            Bucket("a d"),
            Fails,
            again,
        ];
        let went = passed(&rt, rt.alloc(), 0, refused, settings(1, 1, 1, 4), &steps)?;
        assert_eq!(rt; went, 8, "at call {refused}");
    }
    Ok(())
}

// `a` is alone in its part, in which the circle has two equal halves.
#[test]
fn all_circles_go_back_where_one_fails(rt: HostRuntime) -> Result<(), Fail> {
    let steps = [
        Bucket("a"),
        Bucket("a b"),
        Bucket("a c"),
        Bucket("a d"),
        Fails,
        Insists,
    ];
    for refused in 1..7u64 {
        let went = passed(&rt, rt.alloc(), 0, refused, settings(4, 8, 4, 4), &steps)?;
        assert_eq!(rt; went, 6, "at call {refused}");
    }
    Ok(())
}

// If an allocation is made to fail, it fails in the first run, in the second or elsewhere.
#[test]
fn a_run_over_a_circle_that_wants_memory_can_run_again(rt: HostRuntime) -> Result<(), Fail> {
    let steps = [
        Bucket("a"),
        Bucket("a b"),
        Bucket("a c"),
        Bucket("a e"),
        Insists,
        Bucket("e a"),
        Insists,
    ];
    match passed(&rt, rt.alloc(), 0, 0, settings(2, 2, 2, 4), &steps) {
        Ok(went) => assert_eq!(rt; went, 7),
        Err(AllocError) => (),
    }
    Ok(())
}

#[test]
fn a_walk_over_a_circle_goes_on_after_a_failed_run(rt: HostRuntime) -> Result<(), Fail> {
    for refused in [1, 4, 9, 16, 25, 36, 49] {
        let went = passed(
            &rt,
            rt.alloc(),
            0,
            refused,
            settings(4, 2, 4, 5),
            &[Walk(18)],
        )?;
        assert_eq!(rt; went, 1, "at call {refused}");
    }
    Ok(())
}

#[test]
fn each_root_of_a_circle_agrees(rt: HostRuntime) -> Result<(), Fail> {
    for (workers, shards) in [(1, 1), (4, 1), (16, 1), (1, 8), (4, 8), (16, 8)] {
        let settings = settings(workers, shards, workers, 5);
        let went = passed(&rt, rt.alloc(), 0, 0, settings, &[Walk(60)])?;
        assert_eq!(rt; went, 1, "{workers} workers, {shards} shards");
    }
    Ok(())
}

// Locks are worn from the start, or after one turn.
#[test]
fn a_worn_memo_changes_no_root_of_a_circle(rt: HostRuntime) -> Result<(), Fail> {
    for start in [1 << 62, (1 << 62) - 1] {
        let went = passed(&rt, rt.alloc(), start, 0, settings(4, 2, 4, 5), &[Walk(24)])?;
        assert_eq!(rt; went, 1, "from {start}");
    }
    Ok(())
}

const SCRIPT: &str = "bucket 2
a b a
b
bucket 1
c
run
bucket 1
a
late 1 1
c b
run
bucket 1
b
run
bucket 0
bucket 1
c
run
";

// The circle has three places, so each run but the first is over three buckets.
const ANSWERS: &str = "# run 1 keys 3
a\t2
b\t2
c\t1
# run 2 keys 3
a\t3
b\t3
c\t2
# run 3 keys 3
a\t1
b\t2
c\t2
# run 4 keys 2
b\t1
c\t1
";

// Locks are fresh, worn after one turn, or worn from the start.
#[test]
fn a_script_of_a_circle_through_worn_locks(rt: HostRuntime) -> Result<(), Fail> {
    for start in [0, (1 << 62) - 1, 1 << 62] {
        let steps = [Script(SCRIPT, ANSWERS)];
        let went = passed(&rt, rt.alloc(), start, 0, settings(2, 2, 1, 3), &steps)?;
        assert_eq!(rt; went, 1, "from {start}");
    }
    Ok(())
}
