//! Circles of small leaves, with a job that counts words. Each place of a circle is under a path of halves up to the
//! root.
use crate::desk::Desk;
use crate::steps::{Step, insists, refuses, runs, tries, works_ahead};
use crate::walks::slides_on;
use job_laws::CountMeter;
use jobs_basic::Count;
use rotating_tree::RotatingTree;
use sheets::Sheet;
use std::alloc::{AllocError, Global};
use std::sync::Wait;
use std::test::Fail;

type Small = Count<CountMeter>;

type Circle = Desk<Small, RotatingTree<Small>>;

// A circle of `places` places without leaves, over a memo whose locks start at `start`.
fn circle(alloc: Global, places: u32, start: u64) -> Result<Circle, AllocError> {
    Desk::new(alloc, Count::new(), CountMeter::new(), places, start)
}

// How many of the steps went as expected in a circle of `places` places, before one that did not.
fn plays<W: Wait>(
    alloc: Global,
    rt: &W,
    places: u32,
    start: u64,
    steps: &[Step],
) -> Result<usize, AllocError> {
    let mut desk = circle(alloc, places, start)?;
    desk.plays(alloc, rt, steps)
}

#[test]
fn one_bucket_in_five_takes_three_merges(rt: HostRuntime) -> Result<(), Fail> {
    let went = plays(
        rt.alloc(),
        &rt,
        5,
        0,
        &[
            runs(
                0,
                &[],
                b"a\nb\nc\nd\ne\n",
                4,
                b"a\t1\nb\t1\nc\t1\nd\t1\ne\t1\n",
            ),
            runs(1, &[], b"f\n", 3, b"b\t1\nc\t1\nd\t1\ne\t1\nf\t1\n"),
        ],
    )?;
    assert_eq!(rt; went, 2);
    Ok(())
}

#[test]
fn three_of_eight_places_take_two_merges(rt: HostRuntime) -> Result<(), Fail> {
    let went = plays(
        rt.alloc(),
        &rt,
        8,
        0,
        &[runs(0, &[], b"a\nb\nc\n", 2, b"a\t1\nb\t1\nc\t1\n")],
    )?;
    assert_eq!(rt; went, 1);
    Ok(())
}

// After the second run the window is b, c, d, e, with e at the place of a; so the first and the last leaf have one node
// over both.
#[test]
fn a_changed_place_takes_the_path_over_it(rt: HostRuntime) -> Result<(), Fail> {
    let went = plays(
        rt.alloc(),
        &rt,
        4,
        0,
        &[
            runs(0, &[], b"a\nb\nc\nd\n", 3, b"a\t1\nb\t1\nc\t1\nd\t1\n"),
            runs(1, &[1], b"c c c\ne\n", 3, b"b\t1\nc\t3\nd\t1\ne\t1\n"),
            runs(
                0,
                &[0, 3],
                b"b b b b b\ne e e e\n",
                2,
                b"b\t5\nc\t3\nd\t1\ne\t4\n",
            ),
        ],
    )?;
    assert_eq!(rt; went, 3);
    Ok(())
}

// The places have first a, b, c, d, e. Then f, g, h, d, e: new merges are over f and g, over h and d, over these four,
// and over all. The second and the third leaf of the window d, e, f, g, h are at the last place and the first: new
// merges are over f and g, over the four, and over all. Then k, g, h, i, j: new merges are over k and g, over h and i,
// over these four, and over all.
#[test]
fn ranges_wrap_round_the_circle(rt: HostRuntime) -> Result<(), Fail> {
    let went = plays(
        rt.alloc(),
        &rt,
        5,
        0,
        &[
            runs(
                0,
                &[],
                b"a\nb\nc\nd\ne\n",
                4,
                b"a\t1\nb\t1\nc\t1\nd\t1\ne\t1\n",
            ),
            runs(3, &[], b"f\ng\nh\n", 4, b"d\t1\ne\t1\nf\t1\ng\t1\nh\t1\n"),
            runs(
                0,
                &[1, 2],
                b"e e\nf f f\n",
                3,
                b"d\t1\ne\t2\nf\t3\ng\t1\nh\t1\n",
            ),
            runs(3, &[], b"i\nj\nk\n", 4, b"g\t1\nh\t1\ni\t1\nj\t1\nk\t1\n"),
        ],
    )?;
    assert_eq!(rt; went, 4);
    Ok(())
}

#[test]
fn a_circle_lets_leaves_go_where_all_places_are_taken(rt: HostRuntime) -> Result<(), Fail> {
    let went = plays(
        rt.alloc(),
        &rt,
        3,
        0,
        &[
            runs(0, &[], b"a\nb\n", 1, b"a\t1\nb\t1\n"),
            refuses(1, &[], b"c\n", b"a\t1\nb\t1\n"),
            refuses(0, &[], b"c\nd\n", b"a\t1\nb\t1\n"),
            refuses(0, &[2], b"c\n", b"a\t1\nb\t1\n"),
            works_ahead(b"a\t1\nb\t1\n"),
        ],
    )?;
    assert_eq!(rt; went, 5);
    Ok(())
}

// What was merged for the draft is found again.
#[test]
fn a_draft_of_a_circle_that_is_dropped_leaves_no_trace(rt: HostRuntime) -> Result<(), Fail> {
    let went = plays(
        rt.alloc(),
        &rt,
        3,
        0,
        &[
            runs(0, &[], b"a\nb\n", 1, b"a\t1\nb\t1\n"),
            tries(0, &[0], b"a a a\nc\n", 2, b"a\t1\nb\t1\n"),
            runs(0, &[0], b"a a a\nc\n", 0, b"a\t3\nb\t1\nc\t1\n"),
        ],
    )?;
    assert_eq!(rt; went, 3);
    Ok(())
}

#[test]
fn all_leaves_may_go_at_once(rt: HostRuntime) -> Result<(), Fail> {
    let went = plays(
        rt.alloc(),
        &rt,
        3,
        0,
        &[
            runs(0, &[], b"a\nb\nc\n", 2, b"a\t1\nb\t1\nc\t1\n"),
            runs(1, &[], b"d\n", 2, b"b\t1\nc\t1\nd\t1\n"),
            runs(3, &[], b"x\ny\nz\n", 2, b"x\t1\ny\t1\nz\t1\n"),
        ],
    )?;
    assert_eq!(rt; went, 3);
    Ok(())
}

#[test]
fn a_circle_of_one_place_merges_nothing(rt: HostRuntime) -> Result<(), Fail> {
    let went = plays(
        rt.alloc(),
        &rt,
        1,
        0,
        &[
            runs(0, &[], b"a\n", 0, b"a\t1\n"),
            runs(1, &[], b"b\n", 0, b"b\t1\n"),
        ],
    )?;
    assert_eq!(rt; went, 2);
    Ok(())
}

// First one merge over a and a, found again for the other two, and one over both. Then one of the two nodes with the
// same merge leaves, and the other stays; at last the merge of b and a is found.
#[test]
fn equal_merges_are_made_once(rt: HostRuntime) -> Result<(), Fail> {
    let went = plays(
        rt.alloc(),
        &rt,
        4,
        0,
        &[
            runs(0, &[], b"a\na\na\na\n", 2, b"a\t4\n"),
            runs(1, &[], b"b\n", 2, b"a\t3\nb\t1\n"),
            runs(1, &[], b"a\n", 0, b"a\t3\nb\t1\n"),
        ],
    )?;
    assert_eq!(rt; went, 3);
    Ok(())
}

// Nothing is found again.
#[test]
fn a_worn_lock_leaves_merges_of_a_circle_loose(rt: HostRuntime) -> Result<(), Fail> {
    let went = plays(
        rt.alloc(),
        &rt,
        2,
        1 << 62,
        &[
            runs(0, &[], b"a\nb\n", 1, b"a\t1\nb\t1\n"),
            tries(1, &[], b"c\n", 1, b"a\t1\nb\t1\n"),
            runs(1, &[], b"c\n", 1, b"b\t1\nc\t1\n"),
        ],
    )?;
    assert_eq!(rt; went, 3);
    Ok(())
}

#[test]
fn out_of_memory_the_circle_stands(rt: HostRuntime) -> Result<(), Fail> {
    match plays(
        rt.alloc(),
        &rt,
        3,
        0,
        &[
            insists(0, &[], b"a\nb\nc\n", b"a\t1\nb\t1\nc\t1\n"),
            insists(1, &[], b"d\n", b"b\t1\nc\t1\nd\t1\n"),
            insists(1, &[1], b"d d\ne\n", b"c\t1\nd\t2\ne\t1\n"),
        ],
    ) {
        Ok(went) => assert_eq!(rt; went, 3),
        Err(AllocError) => (),
    }
    Ok(())
}

/// The places of the circle that the walk goes round.
const PLACES: usize = 5;

// The record of a leaf of the walk.
fn record_of(step: usize, k: usize) -> [u8; 4] {
    [
        b'a' + ((step % 26 * 7 + k % 26) % 26) as u8,
        b' ',
        b'a' + (step % 26) as u8,
        b'\n',
    ]
}

// The leaves of a step of the walk.
fn leaves_of_step(
    desk: &mut Circle,
    alloc: Global,
    step: usize,
    count: usize,
) -> Result<Vec<Sheet<Small>>, AllocError> {
    let mut news = Vec::new(alloc);
    'came: for k in 0..count {
        let mut one = desk.leaves(alloc, record_of(step, k).as_slice())?;
        news.append(&mut one)?;
    }
    Ok(news)
}

// A step of the walk: whether the root is the plain merge of the window's leaves.
fn goes_on<W: Wait>(
    desk: &mut Circle,
    alloc: Global,
    rt: &W,
    step: usize,
    window: &mut Vec<Sheet<Small>>,
) -> Result<bool, AllocError> {
    let fresh = step % 3;
    let gone = window.len().saturating_add(fresh).saturating_sub(PLACES);
    let kept = window.len().saturating_sub(gone);
    let at = [step % kept.max(1)];
    let (places, _) = at.as_slice().split_at((1 - step % 2).min(kept));
    let news = leaves_of_step(desk, alloc, step, fresh.saturating_add(places.len()))?;
    let m = &mut CountMeter::new();
    slides_on(desk, alloc, rt, step, gone, places, news, window, m)
}

// How many of the steps of a walk succeeded.
fn walk<W: Wait>(alloc: Global, rt: &W, steps: usize) -> Result<usize, AllocError> {
    let mut desk = circle(alloc, PLACES as u32, 0)?;
    let mut window = Vec::new(alloc);
    let mut right = 0usize;
    'steps: for step in 0..steps {
        if goes_on(&mut desk, alloc, rt, step + 1, &mut window)? {
            right = right.saturating_add(1);
        }
    }
    Ok(right)
}

#[test]
fn each_root_of_a_circle_is_the_plain_merge_of_the_leaves(rt: HostRuntime) -> Result<(), Fail> {
    assert_eq!(rt; walk(rt.alloc(), &rt, 2000)?, 2000);
    Ok(())
}
