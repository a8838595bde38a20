//! What single runs count, worked out by hand: records mapped, tables merged, values joined.

use crate::desk::{Jobs, settings};
use crate::steps::Step::{self, Bucket, Drop, Edit, File, Late, Load, Remove, Run};
use crate::steps::plays;
use coalescing_tree::CoalescingTree;
use folding_tree::FoldingTree;
use job_laws::CountMeter;
use jobs_basic::Count;
use random_tree::RandomTree;
use run_engine::Settings;
use std::alloc::{AllocError, Global};
use std::sync::Wait;
use std::test::Fail;
use std::thread::Threads;
use tree_laws::Tree;

type Counting = Count<CountMeter>;

// How many of the steps passed over a tree before one failed. Locks start at `start`.
fn counts<T: Tree<Counting>, R: Threads + Wait + Sync>(
    rt: &R,
    alloc: Global,
    start: u64,
    settings: Settings,
    steps: &[Step],
) -> Result<usize, AllocError>
where
    T: Send,
{
    let jobs = Jobs::new(alloc, Count::new(), Count::new())?;
    plays::<Counting, T, R>(rt, alloc, start, jobs, settings, steps)
}

#[test]
fn a_run_over_nothing_has_no_root(rt: HostRuntime) -> Result<(), Fail> {
    let steps = [
        Run(0, 0, 0),
        Bucket("a"),
        Run(1, 0, 0),
        Drop(1),
        Run(0, 0, 0),
    ];
    let went = counts::<FoldingTree<Counting>, HostRuntime>(
        &rt,
        rt.alloc(),
        0,
        settings(1, 1, 2, 1),
        &steps,
    )?;
    assert_eq!(rt; went, 5);
    Ok(())
}

#[test]
fn each_bucket_of_a_growing_window_takes_a_merge(rt: HostRuntime) -> Result<(), Fail> {
    let steps = [
        Bucket("a,b a"),
        Bucket("b"),
        Run(3, 1, 1),
        Bucket("a"),
        Run(1, 1, 1),
        Run(0, 0, 0),
    ];
    let went = counts::<CoalescingTree<Counting>, HostRuntime>(
        &rt,
        rt.alloc(),
        0,
        settings(1, 1, 1, 1),
        &steps,
    )?;
    assert_eq!(rt; went, 6);
    Ok(())
}

#[test]
fn a_late_record_changes_one_path(rt: HostRuntime) -> Result<(), Fail> {
    let steps = [
        Bucket("a"),
        Bucket("b"),
        Bucket("c"),
        Run(3, 2, 0),
        Late(0, "a"),
        Run(2, 2, 0),
    ];
    let went = counts::<FoldingTree<Counting>, HostRuntime>(
        &rt,
        rt.alloc(),
        0,
        settings(1, 1, 1, 1),
        &steps,
    )?;
    assert_eq!(rt; went, 6);
    Ok(())
}

// When the left half goes, the right one is the tree.
#[test]
fn dropped_buckets_cost_no_merge(rt: HostRuntime) -> Result<(), Fail> {
    let steps = [
        Bucket("a"),
        Bucket("b"),
        Bucket("c"),
        Bucket("d"),
        Run(4, 3, 0),
        Drop(2),
        Run(0, 0, 0),
        Bucket("e"),
        Run(1, 1, 0),
    ];
    let went = counts::<FoldingTree<Counting>, HostRuntime>(
        &rt,
        rt.alloc(),
        0,
        settings(1, 1, 1, 1),
        &steps,
    )?;
    assert_eq!(rt; went, 9);
    Ok(())
}

// `c` has the text of `b` then.
#[test]
fn a_moved_text_is_not_mapped_again(rt: HostRuntime) -> Result<(), Fail> {
    let steps = [
        File("b"),
        Load("y"),
        File("a"),
        Load("x"),
        Run(2, 1, 0),
        Edit(0, 0, "w"),
        Run(2, 1, 0),
        File("c"),
        Load("y"),
        Remove("b"),
        Run(0, 0, 0),
    ];
    let went = counts::<RandomTree<Counting>, HostRuntime>(
        &rt,
        rt.alloc(),
        0,
        settings(1, 1, 1, 1),
        &steps,
    )?;
    assert_eq!(rt; went, 11);
    Ok(())
}

#[test]
fn equal_leaves_are_mapped_once(rt: HostRuntime) -> Result<(), Fail> {
    let steps = [
        Bucket("a b,c"),
        Bucket("a b,c"),
        Bucket("a b,c"),
        Bucket("a b,c"),
        Run(2, 2, 6),
        Bucket("d"),
        Bucket("e"),
        Bucket("f"),
        Bucket("a b,c"),
        Run(3, 4, 3),
    ];
    let went = counts::<FoldingTree<Counting>, HostRuntime>(
        &rt,
        rt.alloc(),
        0,
        settings(4, 2, 1, 1),
        &steps,
    )?;
    assert_eq!(rt; went, 10);
    Ok(())
}

// Through locks that are worn from the start or after one turn no merge is found again, but a lane has its texts without
// them.
#[test]
fn a_worn_memo_merges_equal_tables_again(rt: HostRuntime) -> Result<(), Fail> {
    for (start, first) in [
        (0, Run(1, 2, 2)),
        ((1 << 62) - 1, Run(1, 3, 3)),
        (1 << 62, Run(1, 3, 3)),
    ] {
        let steps = [
            Bucket("a"),
            Bucket("a"),
            Bucket("a"),
            Bucket("a"),
            first,
            Bucket("b"),
            Run(1, 1, 0),
        ];
        let went = counts::<FoldingTree<Counting>, HostRuntime>(
            &rt,
            rt.alloc(),
            start,
            settings(1, 1, 1, 1),
            &steps,
        )?;
        assert_eq!(rt; went, 7, "from {start}");
    }
    Ok(())
}

// The document of the last run is that of the first, three runs before it.
#[test]
fn kept_runs_decide_what_is_mapped_again(rt: HostRuntime) -> Result<(), Fail> {
    for (keep, last) in [(0, Run(2, 0, 0)), (1, Run(2, 0, 0)), (2, Run(0, 0, 0))] {
        let settings = Settings {
            keep,
            ..settings(1, 1, 1, 1)
        };
        let steps = [
            Load("a b,c"),
            Run(2, 0, 0),
            Edit(1, 1, "d"),
            Run(2, 0, 0),
            Edit(1, 1, "e"),
            Run(2, 0, 0),
            Edit(1, 1, "c"),
            last,
        ];
        let went = counts::<RandomTree<Counting>, HostRuntime>(
            &rt,
            rt.alloc(),
            0,
            settings,
            &steps,
        )?;
        assert_eq!(rt; went, 8, "at {keep}");
    }
    Ok(())
}
