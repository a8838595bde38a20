//! Windows whose oldest buckets leave. The job keeps the last value, so that the order of merges shows.
use crate::desk::Desk;
use crate::steps::{Step, another_runs, at, insists, refuses, runs, tries, works_ahead};
use crate::walks::{chance, leaves_of_step, slides_on};
use folding_tree::FoldingTree;
use job_laws::CountMeter;
use jobs_basic::Latest;
use sheets::Sheet;
use std::alloc::{AllocError, Global};
use std::sync::Wait;
use std::test::Fail;

type Small = Latest<CountMeter>;

type Buckets = Desk<Small, FoldingTree<Small>>;

// A tree without leaves, over a memo whose locks start at `start`.
fn buckets(alloc: Global, start: u64) -> Result<Buckets, AllocError> {
    Desk::new(alloc, Latest::new(), CountMeter::new(), 1, start)
}

// How many of the steps went as expected, before one that did not.
fn plays<W: Wait>(alloc: Global, rt: &W, start: u64, steps: &[Step]) -> Result<usize, AllocError> {
    let mut desk = buckets(alloc, start)?;
    desk.plays(alloc, rt, steps)
}

// The first leaf is its own root.
#[test]
fn a_window_without_buckets_merges_nothing(rt: HostRuntime) -> Result<(), Fail> {
    let went = plays(
        rt.alloc(),
        &rt,
        0,
        &[
            runs(0, &[], b"", 0, b""),
            works_ahead(b""),
            runs(0, &[], b"a\t1\n", 0, b"a\t1\n"),
            runs(0, &[], b"", 0, b"a\t1\n"),
        ],
    )?;
    assert_eq!(rt; went, 4);
    Ok(())
}

// New merges: a with b; that with c; c with d and the root; the old root with e.
#[test]
fn a_full_tree_is_doubled(rt: HostRuntime) -> Result<(), Fail> {
    let went = plays(
        rt.alloc(),
        &rt,
        0,
        &[
            runs(0, &[], b"a\t1\n", 0, b"a\t1\n"),
            runs(0, &[], b"b\t2\n", 1, b"a\t1\nb\t2\n"),
            runs(0, &[], b"c\t3\n", 1, b"a\t1\nb\t2\nc\t3\n"),
            runs(0, &[], b"d\t4\n", 2, b"a\t1\nb\t2\nc\t3\nd\t4\n"),
            runs(0, &[], b"e\t5\n", 1, b"a\t1\nb\t2\nc\t3\nd\t4\ne\t5\n"),
        ],
    )?;
    assert_eq!(rt; went, 5);
    Ok(())
}

// The old root is the left half of the new one.
#[test]
fn buckets_that_come_together_are_merged_in_pairs(rt: HostRuntime) -> Result<(), Fail> {
    let went = plays(
        rt.alloc(),
        &rt,
        0,
        &[
            runs(
                0,
                &[],
                b"a\t1\nb\t1\nc\t1\nd\t1\n",
                3,
                b"a\t1\nb\t1\nc\t1\nd\t1\n",
            ),
            runs(
                0,
                &[],
                b"e\t1\nf\t1\ng\t1\nh\t1\n",
                4,
                b"a\t1\nb\t1\nc\t1\nd\t1\ne\t1\nf\t1\ng\t1\nh\t1\n",
            ),
        ],
    )?;
    assert_eq!(rt; went, 2);
    Ok(())
}

// Of eight places the last four have e, f, g, and all nodes over these are there already. Then h takes the fourth place
// of four, and the tree is doubled for i: new merges are g with h, e and f with these two, and that with i.
#[test]
fn the_left_half_folds_away(rt: HostRuntime) -> Result<(), Fail> {
    let went = plays(
        rt.alloc(),
        &rt,
        0,
        &[
            runs(
                0,
                &[],
                b"a\t1\nb\t1\nc\t1\nd\t1\ne\t1\nf\t1\ng\t1\n",
                6,
                b"a\t1\nb\t1\nc\t1\nd\t1\ne\t1\nf\t1\ng\t1\n",
            ),
            runs(4, &[], b"", 0, b"e\t1\nf\t1\ng\t1\n"),
            runs(
                0,
                &[],
                b"h\t1\ni\t1\n",
                3,
                b"e\t1\nf\t1\ng\t1\nh\t1\ni\t1\n",
            ),
        ],
    )?;
    assert_eq!(rt; went, 3);
    Ok(())
}

// Of eight places the fifth has e: first the left half folds away, then, twice, the right one.
#[test]
fn both_halves_fold_away(rt: HostRuntime) -> Result<(), Fail> {
    let went = plays(
        rt.alloc(),
        &rt,
        0,
        &[
            runs(
                0,
                &[],
                b"a\t1\nb\t1\nc\t1\nd\t1\ne\t1\n",
                4,
                b"a\t1\nb\t1\nc\t1\nd\t1\ne\t1\n",
            ),
            runs(4, &[], b"", 0, b"e\t1\n"),
            runs(0, &[], b"f\t1\n", 1, b"e\t1\nf\t1\n"),
        ],
    )?;
    assert_eq!(rt; went, 3);
    Ok(())
}

// Of sixteen places the ninth to the eleventh have i, j, k: the left half of the right half.
#[test]
fn the_right_half_of_what_is_left_folds_away(rt: HostRuntime) -> Result<(), Fail> {
    let went = plays(
        rt.alloc(),
        &rt,
        0,
        &[
            runs(
                0,
                &[],
                b"a\t1\nb\t1\nc\t1\nd\t1\ne\t1\nf\t1\ng\t1\nh\t1\ni\t1\nj\t1\nk\t1\n",
                10,
                b"a\t1\nb\t1\nc\t1\nd\t1\ne\t1\nf\t1\ng\t1\nh\t1\ni\t1\nj\t1\nk\t1\n",
            ),
            runs(8, &[], b"", 0, b"i\t1\nj\t1\nk\t1\n"),
            runs(0, &[], b"l\t1\n", 2, b"i\t1\nj\t1\nk\t1\nl\t1\n"),
        ],
    )?;
    assert_eq!(rt; went, 3);
    Ok(())
}

// First b is alone in its pair; new merges are c with d, and b with these. Then this pair is the whole tree, which is
// doubled.
#[test]
fn a_void_half_passes_the_other_one_up(rt: HostRuntime) -> Result<(), Fail> {
    let went = plays(
        rt.alloc(),
        &rt,
        0,
        &[
            runs(0, &[], b"a\t1\nb\t1\nc\t1\n", 2, b"a\t1\nb\t1\nc\t1\n"),
            runs(1, &[], b"d\t1\n", 2, b"b\t1\nc\t1\nd\t1\n"),
            runs(1, &[], b"e\t1\n", 1, b"c\t1\nd\t1\ne\t1\n"),
        ],
    )?;
    assert_eq!(rt; went, 3);
    Ok(())
}

// Without a, new merges are b with c and d, and the root; without b the root; without c the root again, with d alone on
// its left; and without d it is the sheet on its right.
#[test]
fn a_bucket_that_goes_takes_the_path_over_it(rt: HostRuntime) -> Result<(), Fail> {
    let went = plays(
        rt.alloc(),
        &rt,
        0,
        &[
            runs(
                0,
                &[],
                b"a\t1\nb\t1\nc\t1\nd\t1\ne\t1\nf\t1\ng\t1\nh\t1\n",
                7,
                b"a\t1\nb\t1\nc\t1\nd\t1\ne\t1\nf\t1\ng\t1\nh\t1\n",
            ),
            runs(
                1,
                &[],
                b"",
                2,
                b"b\t1\nc\t1\nd\t1\ne\t1\nf\t1\ng\t1\nh\t1\n",
            ),
            runs(1, &[], b"", 1, b"c\t1\nd\t1\ne\t1\nf\t1\ng\t1\nh\t1\n"),
            runs(1, &[], b"", 1, b"d\t1\ne\t1\nf\t1\ng\t1\nh\t1\n"),
            runs(1, &[], b"", 0, b"e\t1\nf\t1\ng\t1\nh\t1\n"),
        ],
    )?;
    assert_eq!(rt; went, 5);
    Ok(())
}

// New merges over the leaf that leaves: b with c and d, these with e to h; and the root. Then: c and d with e to h; i
// with j; and the root. At last: d with e to h; i and j with k; and the root.
#[test]
fn a_window_of_eight_moves_on(rt: HostRuntime) -> Result<(), Fail> {
    let went = plays(
        rt.alloc(),
        &rt,
        0,
        &[
            runs(
                0,
                &[],
                b"a\t1\nb\t1\nc\t1\nd\t1\ne\t1\nf\t1\ng\t1\nh\t1\n",
                7,
                b"a\t1\nb\t1\nc\t1\nd\t1\ne\t1\nf\t1\ng\t1\nh\t1\n",
            ),
            runs(
                1,
                &[],
                b"i\t1\n",
                3,
                b"b\t1\nc\t1\nd\t1\ne\t1\nf\t1\ng\t1\nh\t1\ni\t1\n",
            ),
            runs(
                1,
                &[],
                b"j\t1\n",
                3,
                b"c\t1\nd\t1\ne\t1\nf\t1\ng\t1\nh\t1\ni\t1\nj\t1\n",
            ),
            runs(
                1,
                &[],
                b"k\t1\n",
                3,
                b"d\t1\ne\t1\nf\t1\ng\t1\nh\t1\ni\t1\nj\t1\nk\t1\n",
            ),
        ],
    )?;
    assert_eq!(rt; went, 4);
    Ok(())
}

#[test]
fn all_buckets_go(rt: HostRuntime) -> Result<(), Fail> {
    let went = plays(
        rt.alloc(),
        &rt,
        0,
        &[
            runs(0, &[], b"a\t1\nb\t1\nc\t1\n", 2, b"a\t1\nb\t1\nc\t1\n"),
            runs(3, &[], b"", 0, b""),
            runs(0, &[], b"d\t1\ne\t1\n", 1, b"d\t1\ne\t1\n"),
        ],
    )?;
    assert_eq!(rt; went, 3);
    Ok(())
}

#[test]
fn all_buckets_go_where_others_come(rt: HostRuntime) -> Result<(), Fail> {
    let went = plays(
        rt.alloc(),
        &rt,
        0,
        &[
            runs(0, &[], b"a\t1\nb\t1\nc\t1\n", 2, b"a\t1\nb\t1\nc\t1\n"),
            runs(3, &[], b"d\t1\ne\t1\n", 1, b"d\t1\ne\t1\n"),
            runs(2, &[], b"f\t1\n", 0, b"f\t1\n"),
        ],
    )?;
    assert_eq!(rt; went, 3);
    Ok(())
}

#[test]
fn a_changed_bucket_takes_the_path_over_it(rt: HostRuntime) -> Result<(), Fail> {
    let went = plays(
        rt.alloc(),
        &rt,
        0,
        &[
            runs(
                0,
                &[],
                b"a\t1\nb\t1\nc\t1\nd\t1\ne\t1\nf\t1\ng\t1\nh\t1\n",
                7,
                b"a\t1\nb\t1\nc\t1\nd\t1\ne\t1\nf\t1\ng\t1\nh\t1\n",
            ),
            runs(
                0,
                &[4],
                b"e\t2\n",
                3,
                b"a\t1\nb\t1\nc\t1\nd\t1\ne\t2\nf\t1\ng\t1\nh\t1\n",
            ),
        ],
    )?;
    assert_eq!(rt; went, 2);
    Ok(())
}

// First one path for both, then two paths that meet in the root.
#[test]
fn changed_buckets_share_what_stands_over_both(rt: HostRuntime) -> Result<(), Fail> {
    let went = plays(
        rt.alloc(),
        &rt,
        0,
        &[
            runs(
                0,
                &[],
                b"a\t1\nb\t1\nc\t1\nd\t1\ne\t1\nf\t1\ng\t1\nh\t1\n",
                7,
                b"a\t1\nb\t1\nc\t1\nd\t1\ne\t1\nf\t1\ng\t1\nh\t1\n",
            ),
            runs(
                0,
                &[2, 3],
                b"c\t2\nd\t2\n",
                3,
                b"a\t1\nb\t1\nc\t2\nd\t2\ne\t1\nf\t1\ng\t1\nh\t1\n",
            ),
            runs(
                0,
                &[0, 7],
                b"a\t2\nh\t2\n",
                5,
                b"a\t2\nb\t1\nc\t2\nd\t2\ne\t1\nf\t1\ng\t1\nh\t2\n",
            ),
        ],
    )?;
    assert_eq!(rt; went, 3);
    Ok(())
}

// New merges are c with d, e with f, that with g, and the root.
#[test]
fn buckets_go_and_change_and_come_at_once(rt: HostRuntime) -> Result<(), Fail> {
    let went = plays(
        rt.alloc(),
        &rt,
        0,
        &[
            runs(
                0,
                &[],
                b"a\t1\nb\t1\nc\t1\nd\t1\ne\t1\n",
                4,
                b"a\t1\nb\t1\nc\t1\nd\t1\ne\t1\n",
            ),
            runs(
                2,
                &[1],
                b"d\t2\nf\t1\ng\t1\n",
                4,
                b"c\t1\nd\t2\ne\t1\nf\t1\ng\t1\n",
            ),
        ],
    )?;
    assert_eq!(rt; went, 2);
    Ok(())
}

#[test]
fn a_tree_is_doubled_beside_a_changed_bucket(rt: HostRuntime) -> Result<(), Fail> {
    let went = plays(
        rt.alloc(),
        &rt,
        0,
        &[
            runs(
                0,
                &[],
                b"a\t1\nb\t1\nc\t1\nd\t1\n",
                3,
                b"a\t1\nb\t1\nc\t1\nd\t1\n",
            ),
            runs(
                0,
                &[0],
                b"a\t2\ne\t1\n",
                3,
                b"a\t2\nb\t1\nc\t1\nd\t1\ne\t1\n",
            ),
        ],
    )?;
    assert_eq!(rt; went, 2);
    Ok(())
}

#[test]
fn the_latest_value_wins_through_drops(rt: HostRuntime) -> Result<(), Fail> {
    let went = plays(
        rt.alloc(),
        &rt,
        0,
        &[
            runs(0, &[], b"k\t1\nk\t2\n", 1, b"k\t2\n"),
            runs(1, &[], b"", 0, b"k\t2\n"),
            runs(0, &[], b"k\t1\n", 1, b"k\t1\n"),
        ],
    )?;
    assert_eq!(rt; went, 3);
    Ok(())
}

#[test]
fn late_records_keep_their_bucket_order(rt: HostRuntime) -> Result<(), Fail> {
    let went = plays(
        rt.alloc(),
        &rt,
        0,
        &[
            runs(0, &[], b"k\t3\nk\t2\n", 1, b"k\t2\n"),
            runs(0, &[1], b"k\t4\n", 1, b"k\t4\n"),
            runs(0, &[0], b"k\t5\n", 1, b"k\t4\n"),
        ],
    )?;
    assert_eq!(rt; went, 3);
    Ok(())
}

// What was merged for the draft is found again.
#[test]
fn a_draft_of_buckets_that_is_dropped_leaves_no_trace(rt: HostRuntime) -> Result<(), Fail> {
    let went = plays(
        rt.alloc(),
        &rt,
        0,
        &[
            runs(
                0,
                &[],
                b"a\t1\nb\t1\nc\t1\nd\t1\ne\t1\n",
                4,
                b"a\t1\nb\t1\nc\t1\nd\t1\ne\t1\n",
            ),
            tries(
                1,
                &[0, 2],
                b"b\t2\nd\t4\nf\t1\ng\t1\nh\t1\ni\t1\nj\t1\n",
                8,
                b"a\t1\nb\t1\nc\t1\nd\t1\ne\t1\n",
            ),
            runs(
                1,
                &[0, 2],
                b"b\t2\nd\t4\nf\t1\ng\t1\nh\t1\ni\t1\nj\t1\n",
                0,
                b"b\t2\nc\t1\nd\t4\ne\t1\nf\t1\ng\t1\nh\t1\ni\t1\nj\t1\n",
            ),
        ],
    )?;
    assert_eq!(rt; went, 3);
    Ok(())
}

// For the drafts f with g is new, then nothing, then g with h and three nodes over them. The run then uses none of
// these.
#[test]
fn drafts_that_fold_and_double_are_dropped(rt: HostRuntime) -> Result<(), Fail> {
    let went = plays(
        rt.alloc(),
        &rt,
        0,
        &[
            runs(
                0,
                &[],
                b"a\t1\nb\t1\nc\t1\nd\t1\ne\t1\nf\t1\ng\t1\n",
                6,
                b"a\t1\nb\t1\nc\t1\nd\t1\ne\t1\nf\t1\ng\t1\n",
            ),
            tries(
                5,
                &[],
                b"",
                1,
                b"a\t1\nb\t1\nc\t1\nd\t1\ne\t1\nf\t1\ng\t1\n",
            ),
            tries(
                7,
                &[],
                b"",
                0,
                b"a\t1\nb\t1\nc\t1\nd\t1\ne\t1\nf\t1\ng\t1\n",
            ),
            tries(
                0,
                &[],
                b"h\t1\ni\t1\n",
                4,
                b"a\t1\nb\t1\nc\t1\nd\t1\ne\t1\nf\t1\ng\t1\n",
            ),
            runs(
                2,
                &[0],
                b"c\t2\nh\t2\n",
                4,
                b"c\t2\nd\t1\ne\t1\nf\t1\ng\t1\nh\t2\n",
            ),
        ],
    )?;
    assert_eq!(rt; went, 5);
    Ok(())
}

#[test]
fn equal_buckets_are_merged_once(rt: HostRuntime) -> Result<(), Fail> {
    let went = plays(
        rt.alloc(),
        &rt,
        0,
        &[
            runs(0, &[], b"a\t1\na\t1\na\t1\na\t1\n", 1, b"a\t1\n"),
            runs(2, &[], b"b\t1\n", 1, b"a\t1\nb\t1\n"),
        ],
    )?;
    assert_eq!(rt; went, 2);
    Ok(())
}

// New merges are a with b, and one such pair with the other. When the first pair leaves and another comes, both are
// found.
#[test]
fn equal_pairs_of_buckets_are_merged_once(rt: HostRuntime) -> Result<(), Fail> {
    let went = plays(
        rt.alloc(),
        &rt,
        0,
        &[
            runs(0, &[], b"a\t1\nb\t1\na\t1\nb\t1\n", 2, b"a\t1\nb\t1\n"),
            runs(2, &[], b"a\t1\nb\t1\n", 0, b"a\t1\nb\t1\n"),
        ],
    )?;
    assert_eq!(rt; went, 2);
    Ok(())
}

#[test]
fn a_tree_of_equal_buckets_merges_nothing(rt: HostRuntime) -> Result<(), Fail> {
    let went = plays(
        rt.alloc(),
        &rt,
        0,
        &[
            runs(0, &[], b"a\t1\nb\t1\nc\t1\n", 2, b"a\t1\nb\t1\nc\t1\n"),
            another_runs(b"a\t1\nb\t1\nc\t1\n", 0, b"a\t1\nb\t1\nc\t1\n"),
        ],
    )?;
    assert_eq!(rt; went, 2);
    Ok(())
}

// No leaf that left can change, and no stretch is replaced as in a document.
#[test]
fn a_window_of_buckets_lets_no_more_go_than_stand(rt: HostRuntime) -> Result<(), Fail> {
    let went = plays(
        rt.alloc(),
        &rt,
        0,
        &[
            runs(0, &[], b"a\t1\nb\t1\n", 1, b"a\t1\nb\t1\n"),
            refuses(3, &[], b"", b"a\t1\nb\t1\n"),
            refuses(1, &[1], b"b\t2\n", b"a\t1\nb\t1\n"),
            at(0, refuses(0, &[], b"c\t1\n", b"a\t1\nb\t1\n")),
            works_ahead(b"a\t1\nb\t1\n"),
        ],
    )?;
    assert_eq!(rt; went, 5);
    Ok(())
}

// Nothing is found again.
#[test]
fn a_worn_lock_leaves_merges_of_buckets_loose(rt: HostRuntime) -> Result<(), Fail> {
    let went = plays(
        rt.alloc(),
        &rt,
        1 << 62,
        &[
            runs(0, &[], b"a\t1\nb\t1\nc\t1\n", 2, b"a\t1\nb\t1\nc\t1\n"),
            tries(1, &[], b"d\t1\n", 2, b"a\t1\nb\t1\nc\t1\n"),
            runs(1, &[], b"d\t1\n", 2, b"b\t1\nc\t1\nd\t1\n"),
        ],
    )?;
    assert_eq!(rt; went, 3);
    Ok(())
}

#[test]
fn equal_buckets_are_merged_again_at_a_worn_lock(rt: HostRuntime) -> Result<(), Fail> {
    let went = plays(
        rt.alloc(),
        &rt,
        1 << 62,
        &[
            runs(0, &[], b"a\t1\na\t1\na\t1\na\t1\n", 3, b"a\t1\n"),
            runs(2, &[], b"a\t1\na\t1\n", 2, b"a\t1\n"),
        ],
    )?;
    assert_eq!(rt; went, 2);
    Ok(())
}

#[test]
fn out_of_memory_the_buckets_stand(rt: HostRuntime) -> Result<(), Fail> {
    match plays(
        rt.alloc(),
        &rt,
        0,
        &[
            insists(0, &[], b"a\t1\nb\t1\nc\t1\n", b"a\t1\nb\t1\nc\t1\n"),
            insists(1, &[1], b"c\t2\nd\t1\n", b"b\t1\nc\t2\nd\t1\n"),
            insists(2, &[], b"a\t2\n", b"a\t2\nd\t1\n"),
            insists(0, &[], b"b\t3\nc\t3\nd\t3\n", b"a\t2\nb\t3\nc\t3\nd\t3\n"),
        ],
    ) {
        Ok(went) => assert_eq!(rt; went, 4),
        Err(AllocError) => (),
    }
    Ok(())
}

// A step of the walk: whether the root is the plain merge of the window's leaves. Up to three leaves go and come, and
// sometimes all leave; at each second step one of those that stay is changed.
fn goes_on<W: Wait>(
    desk: &mut Buckets,
    alloc: Global,
    rt: &W,
    step: usize,
    state: u32,
    window: &mut Vec<Sheet<Small>>,
) -> Result<bool, AllocError> {
    let most = if state >> 28 == 0 {
        window.len()
    } else {
        (state >> 16) as usize % 4
    };
    let gone = most.min(window.len());
    let kept = window.len() - gone;
    let at = [(state >> 8) as usize % kept.max(1)];
    let (places, _) = at.as_slice().split_at((step % 2).min(kept));
    let fresh = (state >> 20) as usize % 4;
    let news = leaves_of_step(alloc, step, fresh + places.len())?;
    let m = &mut CountMeter::new();
    slides_on(desk, alloc, rt, step, gone, places, news, window, m)
}

// How many of the steps of a walk succeeded.
fn walk<W: Wait>(alloc: Global, rt: &W, steps: usize) -> Result<usize, AllocError> {
    let mut desk = buckets(alloc, 0)?;
    let mut window = Vec::new(alloc);
    let mut state = 7u32;
    let mut right = 0usize;
    'steps: for step in 0..steps {
        state = chance(state);
        if goes_on(&mut desk, alloc, rt, step, state, &mut window)? {
            right = right.saturating_add(1);
        }
    }
    Ok(right)
}

#[test]
fn each_root_of_buckets_is_the_plain_merge_of_the_leaves(rt: HostRuntime) -> Result<(), Fail> {
    assert_eq!(rt; walk(rt.alloc(), &rt, 2000)?, 2000);
    Ok(())
}
