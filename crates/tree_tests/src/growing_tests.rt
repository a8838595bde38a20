//! Windows that grow, of small leaves. The job keeps the last value, so that the order of merges shows.
use crate::desk::Desk;
use crate::steps::{Step, another_runs, insists, refuses, runs, tries, works_ahead};
use crate::walks::{goes, leaves_of_step};
use coalescing_tree::CoalescingTree;
use job_laws::CountMeter;
use jobs_basic::Latest;
use sheets::{Sheet, merge_sheets};
use std::alloc::{AllocError, Global};
use std::sync::Wait;
use std::test::Fail;

type Small = Latest<CountMeter>;

type Growing = Desk<Small, CoalescingTree<Small>>;

// A tree without leaves, over a memo whose locks start at `start`.
fn growing(alloc: Global, start: u64) -> Result<Growing, AllocError> {
    Desk::new(alloc, Latest::new(), CountMeter::new(), 1, start)
}

// How many of the steps went as expected, before one that did not.
fn plays<W: Wait>(alloc: Global, rt: &W, start: u64, steps: &[Step]) -> Result<usize, AllocError> {
    let mut desk = growing(alloc, start)?;
    desk.plays(alloc, rt, steps)
}

// The first leaf is its own root.
#[test]
fn each_fresh_leaf_takes_one_merge(rt: HostRuntime) -> Result<(), Fail> {
    let went = plays(
        rt.alloc(),
        &rt,
        0,
        &[
            runs(0, &[], b"", 0, b""),
            runs(0, &[], b"a\t1\n", 0, b"a\t1\n"),
            runs(0, &[], b"b\t2\n", 1, b"a\t1\nb\t2\n"),
            runs(
                0,
                &[],
                b"c\t3\nd\t4\ne\t5\n",
                3,
                b"a\t1\nb\t2\nc\t3\nd\t4\ne\t5\n",
            ),
            runs(0, &[], b"", 0, b"a\t1\nb\t2\nc\t3\nd\t4\ne\t5\n"),
        ],
    )?;
    assert_eq!(rt; went, 5);
    Ok(())
}

#[test]
fn the_value_that_came_last_wins(rt: HostRuntime) -> Result<(), Fail> {
    let went = plays(
        rt.alloc(),
        &rt,
        0,
        &[
            runs(0, &[], b"a\t1\nb\t1\na\t2\n", 2, b"a\t2\nb\t1\n"),
            runs(0, &[], b"b\t3\nb\t2\n", 2, b"a\t2\nb\t2\n"),
        ],
    )?;
    assert_eq!(rt; went, 2);
    Ok(())
}

// What was merged for the draft is found again.
#[test]
fn a_growing_draft_that_is_dropped_leaves_no_trace(rt: HostRuntime) -> Result<(), Fail> {
    let went = plays(
        rt.alloc(),
        &rt,
        0,
        &[
            runs(0, &[], b"a\t1\nb\t1\n", 1, b"a\t1\nb\t1\n"),
            tries(0, &[], b"a\t2\nc\t1\n", 2, b"a\t1\nb\t1\n"),
            runs(0, &[], b"a\t2\nc\t1\n", 0, b"a\t2\nb\t1\nc\t1\n"),
        ],
    )?;
    assert_eq!(rt; went, 3);
    Ok(())
}

#[test]
fn a_tree_of_equal_leaves_merges_nothing(rt: HostRuntime) -> Result<(), Fail> {
    let went = plays(
        rt.alloc(),
        &rt,
        0,
        &[
            runs(0, &[], b"a\t1\nb\t1\na\t2\n", 2, b"a\t2\nb\t1\n"),
            another_runs(b"a\t1\nb\t1\na\t2\n", 0, b"a\t2\nb\t1\n"),
        ],
    )?;
    assert_eq!(rt; went, 2);
    Ok(())
}

#[test]
fn a_growing_window_lets_no_leaf_go(rt: HostRuntime) -> Result<(), Fail> {
    let went = plays(
        rt.alloc(),
        &rt,
        0,
        &[
            runs(0, &[], b"a\t1\nb\t1\n", 1, b"a\t1\nb\t1\n"),
            refuses(1, &[], b"c\t1\n", b"a\t1\nb\t1\n"),
            refuses(0, &[0], b"c\t1\n", b"a\t1\nb\t1\n"),
            works_ahead(b"a\t1\nb\t1\n"),
        ],
    )?;
    assert_eq!(rt; went, 4);
    Ok(())
}

// Nothing is found again.
#[test]
fn a_worn_lock_leaves_growing_merges_loose(rt: HostRuntime) -> Result<(), Fail> {
    let went = plays(
        rt.alloc(),
        &rt,
        1 << 62,
        &[
            runs(0, &[], b"a\t1\nb\t1\n", 1, b"a\t1\nb\t1\n"),
            tries(0, &[], b"a\t2\n", 1, b"a\t1\nb\t1\n"),
            runs(0, &[], b"a\t2\n", 1, b"a\t2\nb\t1\n"),
        ],
    )?;
    assert_eq!(rt; went, 3);
    Ok(())
}

#[test]
fn out_of_memory_the_leaves_stay(rt: HostRuntime) -> Result<(), Fail> {
    match plays(
        rt.alloc(),
        &rt,
        0,
        &[
            insists(0, &[], b"a\t1\n", b"a\t1\n"),
            insists(0, &[], b"b\t1\na\t2\n", b"a\t2\nb\t1\n"),
            insists(0, &[], b"c\t1\nc\t2\nb\t2\n", b"a\t2\nb\t2\nc\t2\n"),
        ],
    ) {
        Ok(went) => assert_eq!(rt; went, 3),
        Err(AllocError) => (),
    }
    Ok(())
}

// The merge of a sheet with the new ones, from left to right.
fn merged_with(
    alloc: Global,
    sheet: &Sheet<Small>,
    news: &[Sheet<Small>],
) -> Result<Sheet<Small>, AllocError> {
    let job: Small = Latest::new();
    let mut m = CountMeter::new();
    let mut all = sheet.share()?;
    'came: for i in 0..news.len() {
        if all.setting() == 0 && news[i].setting() == 0 {
            all = merge_sheets(alloc, &job, &all, &news[i], &mut m)?;
        }
    }
    Ok(all)
}

// A step of the walk: whether the root is the plain merge of all leaves.
fn goes_on<W: Wait>(
    desk: &mut Growing,
    alloc: Global,
    rt: &W,
    step: usize,
    want: &mut Sheet<Small>,
) -> Result<bool, AllocError> {
    let news = leaves_of_step(alloc, step, step % 4)?;
    *want = merged_with(alloc, want, news.as_slice())?;
    let shift = desk.slide(alloc, 0, &[], news.len())?;
    let went = goes(desk, alloc, rt, step, &shift, news.as_slice())?;
    Ok(went && desk.has(want))
}

// How many of the steps of a walk succeeded.
fn walk<W: Wait>(alloc: Global, rt: &W, steps: usize) -> Result<usize, AllocError> {
    let mut desk = growing(alloc, 0)?;
    let mut want = Sheet::empty(alloc, 0)?;
    let mut right = 0usize;
    'steps: for step in 0..steps {
        if goes_on(&mut desk, alloc, rt, step + 1, &mut want)? {
            right = right.saturating_add(1);
        }
    }
    Ok(right)
}

#[test]
fn each_growing_root_is_the_plain_merge_of_the_leaves(rt: HostRuntime) -> Result<(), Fail> {
    assert_eq!(rt; walk(rt.alloc(), &rt, 2000)?, 2000);
    Ok(())
}
