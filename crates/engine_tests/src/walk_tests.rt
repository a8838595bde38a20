//! Walks over the trees but that of a circle, with 1, 4 and 16 workers and parts and with 1 and 8 shards, and over worn locks.

use crate::desk::{Jobs, settings};
use crate::steps::Step::Walk;
use crate::steps::plays;
use coalescing_tree::CoalescingTree;
use folding_tree::FoldingTree;
use job_laws::CountMeter;
use jobs_basic::Latest;
use random_tree::RandomTree;
use std::alloc::{AllocError, Global};
use std::sync::Wait;
use std::test::Fail;
use std::thread::Threads;
use tree_laws::Tree;

type Last = Latest<CountMeter>;

// Workers, which are as many as parts, and shards.
const SIZES: [(u32, u32); 6] = [(1, 1), (4, 1), (16, 1), (1, 8), (4, 8), (16, 8)];

// Whether a walk over a tree passes, with a job whose values may not swap. There are as many parts as workers, and locks
// start at `start`.
fn latest_walks<T: Tree<Last>, R: Threads + Wait + Sync>(
    rt: &R,
    alloc: Global,
    start: u64,
    workers: u32,
    shards: u32,
    steps: u32,
) -> Result<bool, AllocError>
where
    T: Send,
{
    let jobs = Jobs::new(alloc, Latest::new(), Latest::new())?;
    let settings = settings(workers, shards, workers, 1);
    Ok(plays::<Last, T, R>(rt, alloc, start, jobs, settings, &[Walk(steps)])? == 1)
}

#[test]
fn each_root_of_a_growing_window_agrees(rt: HostRuntime) -> Result<(), Fail> {
    for (workers, shards) in SIZES {
        let went = latest_walks::<CoalescingTree<Last>, HostRuntime>(
            &rt,
            rt.alloc(),
            0,
            workers,
            shards,
            60,
        )?;
        assert!(rt; went, "{workers} workers, {shards} shards");
    }
    Ok(())
}

#[test]
fn each_root_of_buckets_agrees(rt: HostRuntime) -> Result<(), Fail> {
    for (workers, shards) in SIZES {
        let went = latest_walks::<FoldingTree<Last>, HostRuntime>(
            &rt,
            rt.alloc(),
            0,
            workers,
            shards,
            60,
        )?;
        assert!(rt; went, "{workers} workers, {shards} shards");
    }
    Ok(())
}

#[test]
fn each_root_of_a_document_agrees(rt: HostRuntime) -> Result<(), Fail> {
    for (workers, shards) in SIZES {
        let went = latest_walks::<RandomTree<Last>, HostRuntime>(
            &rt,
            rt.alloc(),
            0,
            workers,
            shards,
            60,
        )?;
        assert!(rt; went, "{workers} workers, {shards} shards");
    }
    Ok(())
}

// Locks are worn from the start, or after one turn.
#[test]
fn a_worn_memo_changes_no_answer(rt: HostRuntime) -> Result<(), Fail> {
    for start in [1 << 62, (1 << 62) - 1] {
        assert!(rt;
            latest_walks::<CoalescingTree<Last>, HostRuntime>(&rt, rt.alloc(), start, 4, 2, 24)?,
            "from {start}"
        );
        assert!(rt;
            latest_walks::<FoldingTree<Last>, HostRuntime>(&rt, rt.alloc(), start, 4, 2, 24)?,
            "from {start}"
        );
        assert!(rt;
            latest_walks::<RandomTree<Last>, HostRuntime>(&rt, rt.alloc(), start, 4, 2, 24)?,
            "from {start}"
        );
    }
    Ok(())
}
