//! Runs that are out of memory, and are made again.

use crate::desk::{Jobs, settings};
use crate::refusing::Refusing;
use crate::steps::Step::{self, Bucket, Fails, Insists, Late, Run, Walk};
use crate::steps::plays;
use coalescing_tree::CoalescingTree;
use folding_tree::FoldingTree;
use job_laws::CountMeter;
use random_tree::RandomTree;
use run_engine::Settings;
use std::alloc::{AllocError, Global};
use std::sync::Wait;
use std::test::Fail;
use std::thread::Threads;
use tree_laws::Tree;

type Counting = Refusing<CountMeter>;

type Buckets = FoldingTree<Counting>;

// Whether all steps pass over a tree whose job refuses call `refused`.
fn all_pass<T: Tree<Counting>, R: Threads + Wait + Sync>(
    rt: &R,
    alloc: Global,
    refused: u64,
    settings: Settings,
    steps: &[Step],
) -> Result<bool, AllocError>
where
    T: Send,
{
    let jobs = Jobs::new(alloc, Refusing::new(refused), Refusing::new(0))?;
    let passed = plays::<Counting, T, R>(rt, alloc, 0, jobs, settings, steps)?;
    Ok(passed == steps.len())
}

// Four records are mapped, each in a lane of its own, and `a` is joined three times. The second run finds all that the
// first one stored.
#[test]
fn a_failed_run_can_run_again(rt: HostRuntime) -> Result<(), Fail> {
    for (refused, again) in [
        (1, Run(1, 3, 3)),
        (4, Run(1, 3, 3)),
        (5, Run(0, 3, 3)),
        (6, Run(0, 2, 2)),
        (7, Run(0, 1, 1)),
    ] {
        let steps = [
            Bucket("a"),
            Bucket("a b"),
            Bucket("a c"),
            Bucket("a e"),
            Fails,
            again,
        ];
        let went = all_pass::<Buckets, HostRuntime>(
            &rt,
            rt.alloc(),
            refused,
            settings(1, 1, 1, 1),
            &steps,
        )?;
        assert!(rt; went, "at call {refused}");
    }
    Ok(())
}

// The first run maps and joins as above. The next one maps the two records of the first bucket, and makes the two merges
// over it.
#[test]
fn a_failed_run_leaves_the_roots_of_before(rt: HostRuntime) -> Result<(), Fail> {
    for (refused, again) in [
        (8, Run(2, 2, 2)),
        (9, Run(2, 2, 2)),
        (10, Run(0, 2, 2)),
        (11, Run(0, 1, 1)),
    ] {
        let steps = [
            Bucket("a"),
            Bucket("a b"),
            Bucket("a c"),
            Bucket("a e"),
            Run(4, 3, 3),
            Late(0, "d"),
            Fails,
            again,
        ];
        let went = all_pass::<Buckets, HostRuntime>(
            &rt,
            rt.alloc(),
            refused,
            settings(1, 1, 1, 1),
            &steps,
        )?;
        assert!(rt; went, "at call {refused}");
    }
    Ok(())
}

// `a` is alone in its part, in which the tree has two equal halves.
#[test]
fn all_parts_go_back_where_one_fails(rt: HostRuntime) -> Result<(), Fail> {
    let steps = [
        Bucket("a"),
        Bucket("a b"),
        Bucket("a c"),
        Bucket("a d"),
        Fails,
        Insists,
    ];
    for refused in 1..7u64 {
        let went = all_pass::<Buckets, HostRuntime>(
            &rt,
            rt.alloc(),
            refused,
            settings(4, 8, 4, 1),
            &steps,
        )?;
        assert!(rt; went, "at call {refused}");
    }
    Ok(())
}

// The calls that walks refuse, one in each.
const REFUSED: [u64; 7] = [1, 4, 9, 16, 25, 36, 49];

#[test]
fn a_walk_goes_on_after_a_failed_run(rt: HostRuntime) -> Result<(), Fail> {
    for refused in REFUSED {
        assert!(rt;
            all_pass::<CoalescingTree<Counting>, HostRuntime>(
                &rt,
                rt.alloc(),
                refused,
                settings(4, 2, 4, 1),
                &[Walk(18)]
            )?,
            "at call {refused}"
        );
        assert!(rt;
            all_pass::<Buckets, HostRuntime>(
                &rt,
                rt.alloc(),
                refused,
                settings(4, 2, 4, 1),
                &[Walk(18)]
            )?,
            "at call {refused}"
        );
        assert!(rt;
            all_pass::<RandomTree<Counting>, HostRuntime>(
                &rt,
                rt.alloc(),
                refused,
                settings(4, 2, 4, 1),
                &[Walk(18)]
            )?,
            "at call {refused}"
        );
    }
    Ok(())
}

// If an allocation is made to fail, it fails in the first run, in the second or elsewhere.
#[test]
fn a_run_that_wants_memory_can_run_again(rt: HostRuntime) -> Result<(), Fail> {
    let steps = [
        Bucket("a"),
        Bucket("a b"),
        Bucket("a c"),
        Bucket("a e"),
        Insists,
        Bucket("e a"),
        Insists,
    ];
    match all_pass::<Buckets, HostRuntime>(&rt, rt.alloc(), 0, settings(2, 2, 2, 1), &steps) {
        Ok(went) => assert!(rt; went),
        Err(AllocError) => (),
    }
    Ok(())
}
