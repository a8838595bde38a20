//! Documents of small leaves. The job keeps the last value, so that the order of merges shows. Where a group ends
//! depends on the digests of its members: of the sheets of one letter with the value 1 those of c e h k n o p s t u v w
//! A D E F G H I J K L M P R U W Y Z are marked.
use crate::desk::Desk;
use crate::steps::{Step, another_runs, at, insists, refuses, runs, tries, works_ahead};
use crate::walks::{chance, leaves_of_step, splices_on};
use job_laws::CountMeter;
use jobs_basic::Latest;
use random_tree::RandomTree;
use sheets::Sheet;
use std::alloc::{AllocError, Global};
use std::sync::Wait;
use std::test::Fail;

type Small = Latest<CountMeter>;

type Document = Desk<Small, RandomTree<Small>>;

// A document without leaves, over a memo whose locks start at `start`.
fn document(alloc: Global, start: u64) -> Result<Document, AllocError> {
    Desk::new(alloc, Latest::new(), CountMeter::new(), 1, start)
}

// How many of the steps went as expected, before one that did not.
fn plays<W: Wait>(alloc: Global, rt: &W, start: u64, steps: &[Step]) -> Result<usize, AllocError> {
    let mut desk = document(alloc, start)?;
    desk.plays(alloc, rt, steps)
}

// An edit: `gone` leaves go from the `first`th on, and leaves of these letters come, each with the value 1. It must
// make `merges` merges.
#[derive(Clone, Copy)]
struct Edit<'a> {
    first: usize,
    gone: usize,
    letters: &'a [u8],
    merges: u64,
}

fn replaces<'a>(first: usize, gone: usize, letters: &'a [u8], merges: u64) -> Edit<'a> {
    Edit {
        first,
        gone,
        letters,
        merges,
    }
}

// The leaves of letters with the value 1.
fn leaves_of(
    desk: &mut Document,
    alloc: Global,
    letters: &[u8],
) -> Result<Vec<Sheet<Small>>, AllocError> {
    let mut news = Vec::new(alloc);
    'letters: for i in 0..letters.len() {
        let mut one = desk.leaves(alloc, &[letters[i], b'\t', b'1', b'\n'])?;
        news.append(&mut one)?;
    }
    Ok(news)
}

// Whether an edit made as many merges as expected, and left the root as the plain merge of the document's leaves.
fn takes<W: Wait>(
    desk: &mut Document,
    alloc: Global,
    rt: &W,
    edit: &Edit,
    window: &mut Vec<Sheet<Small>>,
) -> Result<bool, AllocError> {
    let news = leaves_of(desk, alloc, edit.letters)?;
    let before = desk.merges();
    let m = &mut CountMeter::new();
    let went = splices_on(desk, alloc, rt, 1, edit.first, edit.gone, news, window, m)?;
    Ok(went && desk.merges().saturating_sub(before) == edit.merges)
}

// How many of the edits went as expected at this desk, before one that did not.
fn takes_all<W: Wait>(
    desk: &mut Document,
    alloc: Global,
    rt: &W,
    edits: &[Edit],
) -> Result<usize, AllocError> {
    let mut window = Vec::new(alloc);
    'edits: for i in 0..edits.len() {
        if !takes(desk, alloc, rt, &edits[i], &mut window)? {
            return Ok(i);
        }
    }
    Ok(edits.len())
}

// How many of the edits of a new document went as expected, before one that did not.
fn edits<W: Wait>(alloc: Global, rt: &W, edits: &[Edit]) -> Result<usize, AllocError> {
    let mut desk = document(alloc, 0)?;
    takes_all(&mut desk, alloc, rt, edits)
}

/// The letters of most documents.
const LETTERS: &[u8] = b"abcdefghijklmnopqrstuvwxyz";

// The first leaf is its own root.
#[test]
fn an_empty_document_merges_nothing(rt: HostRuntime) -> Result<(), Fail> {
    let went = plays(
        rt.alloc(),
        &rt,
        0,
        &[
            at(0, runs(0, &[], b"", 0, b"")),
            works_ahead(b""),
            at(0, runs(0, &[], b"a\t1\n", 0, b"a\t1\n")),
            at(1, runs(0, &[], b"", 0, b"a\t1\n")),
        ],
    )?;
    assert_eq!(rt; went, 4);
    Ok(())
}

// The groups are a b c, e f h and i: when j replaces i, only the root is new. When d replaces c, the groups are a b d
// e, f h and j: new are two merges in the first group, one in the second, that of both, and the root.
#[test]
fn a_group_ends_at_a_marked_leaf(rt: HostRuntime) -> Result<(), Fail> {
    let went = plays(
        rt.alloc(),
        &rt,
        0,
        &[
            at(
                0,
                runs(
                    0,
                    &[],
                    b"a\t1\nb\t1\nc\t1\ne\t1\nf\t1\nh\t1\ni\t1\n",
                    6,
                    b"a\t1\nb\t1\nc\t1\ne\t1\nf\t1\nh\t1\ni\t1\n",
                ),
            ),
            at(
                6,
                runs(
                    1,
                    &[],
                    b"j\t1\n",
                    1,
                    b"a\t1\nb\t1\nc\t1\ne\t1\nf\t1\nh\t1\nj\t1\n",
                ),
            ),
            at(
                2,
                runs(
                    1,
                    &[],
                    b"d\t1\n",
                    5,
                    b"a\t1\nb\t1\nd\t1\ne\t1\nf\t1\nh\t1\nj\t1\n",
                ),
            ),
        ],
    )?;
    assert_eq!(rt; went, 3);
    Ok(())
}

// None of these is marked, so the groups have 8, 8 and 1 members. Then m leaves, the first leaf of the second group,
// and two groups of 8 are left: new are 7 merges in the second group, and that of both. At last m comes back, after all
// others, and is merged with the root before.
#[test]
fn a_group_ends_at_its_eighth_leaf(rt: HostRuntime) -> Result<(), Fail> {
    let went = edits(
        rt.alloc(),
        &rt,
        &[
            replaces(0, 0, b"abdfgijlmqrxyzBCN", 16),
            replaces(8, 1, b"", 8),
            replaces(16, 0, b"m", 1),
        ],
    )?;
    assert_eq!(rt; went, 3);
    Ok(())
}

// Their groups are two and two, and all three merges have one input.
#[test]
fn four_empty_leaves_take_one_merge(rt: HostRuntime) -> Result<(), Fail> {
    let went = plays(
        rt.alloc(),
        &rt,
        0,
        &[at(0, runs(0, &[], b"\n\n\n\n", 1, b""))],
    )?;
    assert_eq!(rt; went, 1);
    Ok(())
}

// Nine leaves take two levels.
#[test]
fn equal_leaves_are_merged_once(rt: HostRuntime) -> Result<(), Fail> {
    let went = plays(
        rt.alloc(),
        &rt,
        0,
        &[
            at(
                0,
                runs(
                    0,
                    &[],
                    b"a\t1\na\t1\na\t1\na\t1\na\t1\na\t1\na\t1\na\t1\na\t1\n",
                    1,
                    b"a\t1\n",
                ),
            ),
            at(0, runs(4, &[], b"", 0, b"a\t1\n")),
        ],
    )?;
    assert_eq!(rt; went, 2);
    Ok(())
}

#[test]
fn equal_groups_are_merged_once(rt: HostRuntime) -> Result<(), Fail> {
    let went = plays(
        rt.alloc(),
        &rt,
        0,
        &[
            at(
                0,
                runs(0, &[], b"a\t1\nc\t1\na\t1\nc\t1\n", 2, b"a\t1\nc\t1\n"),
            ),
            at(2, runs(2, &[], b"a\t1\nc\t1\n", 0, b"a\t1\nc\t1\n")),
        ],
    )?;
    assert_eq!(rt; went, 2);
    Ok(())
}

// The last leaf leaves, which was a group by itself, then the one before it that has the same key.
#[test]
fn the_last_value_of_a_document_wins(rt: HostRuntime) -> Result<(), Fail> {
    let went = plays(
        rt.alloc(),
        &rt,
        0,
        &[
            at(
                0,
                runs(0, &[], b"k\t1\nk\t2\nj\t3\nk\t4\n", 3, b"j\t3\nk\t4\n"),
            ),
            at(3, runs(1, &[], b"", 0, b"j\t3\nk\t2\n")),
            at(1, runs(1, &[], b"", 1, b"j\t3\nk\t1\n")),
        ],
    )?;
    assert_eq!(rt; went, 3);
    Ok(())
}

#[test]
fn all_leaves_of_a_document_go(rt: HostRuntime) -> Result<(), Fail> {
    let went = plays(
        rt.alloc(),
        &rt,
        0,
        &[
            at(0, runs(0, &[], b"a\t1\nb\t1\n", 1, b"a\t1\nb\t1\n")),
            at(0, runs(2, &[], b"", 0, b"")),
            at(0, runs(0, &[], b"j\t3\nk\t4\n", 1, b"j\t3\nk\t4\n")),
        ],
    )?;
    assert_eq!(rt; went, 3);
    Ok(())
}

#[test]
fn other_leaves_come_where_all_go(rt: HostRuntime) -> Result<(), Fail> {
    let went = plays(
        rt.alloc(),
        &rt,
        0,
        &[
            at(
                0,
                runs(0, &[], b"a\t1\nb\t1\nc\t1\n", 2, b"a\t1\nb\t1\nc\t1\n"),
            ),
            at(0, runs(3, &[], b"d\t1\ne\t1\n", 1, b"d\t1\ne\t1\n")),
            at(0, runs(2, &[], b"f\t1\n", 0, b"f\t1\n")),
        ],
    )?;
    assert_eq!(rt; went, 3);
    Ok(())
}

// The groups are a b c and d e; then b c and d e; then b c and d alone.
#[test]
fn leaves_at_both_ends_go(rt: HostRuntime) -> Result<(), Fail> {
    let went = plays(
        rt.alloc(),
        &rt,
        0,
        &[
            at(
                0,
                runs(
                    0,
                    &[],
                    b"a\t1\nb\t1\nc\t1\nd\t1\ne\t1\n",
                    4,
                    b"a\t1\nb\t1\nc\t1\nd\t1\ne\t1\n",
                ),
            ),
            at(0, runs(1, &[], b"", 2, b"b\t1\nc\t1\nd\t1\ne\t1\n")),
            at(3, runs(1, &[], b"", 1, b"b\t1\nc\t1\nd\t1\n")),
        ],
    )?;
    assert_eq!(rt; went, 3);
    Ok(())
}

// The groups were a b c, d e and f g h; then a b c stays, and x y z f g h is a group of six, so new are five merges in
// it and the root. When the stretch is put back, all merges are found.
#[test]
fn a_stretch_in_the_middle_is_replaced(rt: HostRuntime) -> Result<(), Fail> {
    let went = plays(
        rt.alloc(),
        &rt,
        0,
        &[
            at(
                0,
                runs(
                    0,
                    &[],
                    b"a\t1\nb\t1\nc\t1\nd\t1\ne\t1\nf\t1\ng\t1\nh\t1\n",
                    7,
                    b"a\t1\nb\t1\nc\t1\nd\t1\ne\t1\nf\t1\ng\t1\nh\t1\n",
                ),
            ),
            at(
                3,
                runs(
                    2,
                    &[],
                    b"x\t1\ny\t1\nz\t1\n",
                    6,
                    b"a\t1\nb\t1\nc\t1\nf\t1\ng\t1\nh\t1\nx\t1\ny\t1\nz\t1\n",
                ),
            ),
            at(
                3,
                runs(
                    3,
                    &[],
                    b"d\t1\ne\t1\n",
                    0,
                    b"a\t1\nb\t1\nc\t1\nd\t1\ne\t1\nf\t1\ng\t1\nh\t1\n",
                ),
            ),
        ],
    )?;
    assert_eq!(rt; went, 3);
    Ok(())
}

// First d is a group by itself, then d and e are a group, which ends there; f begins another one.
#[test]
fn a_leaf_behind_all_others_joins_the_last_group(rt: HostRuntime) -> Result<(), Fail> {
    let went = plays(
        rt.alloc(),
        &rt,
        0,
        &[
            at(
                0,
                runs(
                    0,
                    &[],
                    b"a\t1\nb\t1\nc\t1\nd\t1\n",
                    3,
                    b"a\t1\nb\t1\nc\t1\nd\t1\n",
                ),
            ),
            at(
                4,
                runs(0, &[], b"e\t1\n", 2, b"a\t1\nb\t1\nc\t1\nd\t1\ne\t1\n"),
            ),
            at(
                5,
                runs(
                    0,
                    &[],
                    b"f\t1\n",
                    1,
                    b"a\t1\nb\t1\nc\t1\nd\t1\ne\t1\nf\t1\n",
                ),
            ),
        ],
    )?;
    assert_eq!(rt; went, 3);
    Ok(())
}

#[test]
fn a_document_that_is_loaded_again_costs_no_merge(rt: HostRuntime) -> Result<(), Fail> {
    let went = edits(
        rt.alloc(),
        &rt,
        &[
            replaces(0, 0, LETTERS, 25),
            replaces(0, 26, LETTERS, 0),
            replaces(7, 0, b"", 0),
        ],
    )?;
    assert_eq!(rt; went, 3);
    Ok(())
}

#[test]
fn a_document_comes_back_without_a_merge(rt: HostRuntime) -> Result<(), Fail> {
    let went = edits(
        rt.alloc(),
        &rt,
        &[
            replaces(0, 0, LETTERS, 25),
            replaces(0, 26, b"", 0),
            replaces(0, 0, LETTERS, 0),
        ],
    )?;
    assert_eq!(rt; went, 3);
    Ok(())
}

#[test]
fn a_first_leaf_changes(rt: HostRuntime) -> Result<(), Fail> {
    let went = edits(
        rt.alloc(),
        &rt,
        &[replaces(0, 0, LETTERS, 25), replaces(0, 1, b"A", 6)],
    )?;
    assert_eq!(rt; went, 2);
    Ok(())
}

// The letter n is marked and B is not, so the group of n goes on with o and p, and another one is made again.
#[test]
fn a_leaf_in_the_middle_changes(rt: HostRuntime) -> Result<(), Fail> {
    let went = edits(
        rt.alloc(),
        &rt,
        &[replaces(0, 0, LETTERS, 25), replaces(13, 1, b"B", 11)],
    )?;
    assert_eq!(rt; went, 2);
    Ok(())
}

#[test]
fn a_last_leaf_changes(rt: HostRuntime) -> Result<(), Fail> {
    let went = edits(
        rt.alloc(),
        &rt,
        &[replaces(0, 0, LETTERS, 25), replaces(25, 1, b"C", 3)],
    )?;
    assert_eq!(rt; went, 2);
    Ok(())
}

#[test]
fn a_leaf_comes_in_the_middle(rt: HostRuntime) -> Result<(), Fail> {
    let went = edits(
        rt.alloc(),
        &rt,
        &[replaces(0, 0, LETTERS, 25), replaces(13, 0, b"B", 6)],
    )?;
    assert_eq!(rt; went, 2);
    Ok(())
}

#[test]
fn a_leaf_goes_from_the_middle(rt: HostRuntime) -> Result<(), Fail> {
    let went = edits(
        rt.alloc(),
        &rt,
        &[replaces(0, 0, LETTERS, 25), replaces(13, 1, b"", 10)],
    )?;
    assert_eq!(rt; went, 2);
    Ok(())
}

#[test]
fn a_leaf_comes_behind_all_others(rt: HostRuntime) -> Result<(), Fail> {
    let went = edits(
        rt.alloc(),
        &rt,
        &[replaces(0, 0, LETTERS, 25), replaces(26, 0, b"B", 3)],
    )?;
    assert_eq!(rt; went, 2);
    Ok(())
}

// The second half comes before the first one. The merges in their old groups are found.
#[test]
fn a_text_that_moved_is_merged_where_its_groups_changed(rt: HostRuntime) -> Result<(), Fail> {
    let went = edits(
        rt.alloc(),
        &rt,
        &[
            replaces(0, 0, LETTERS, 25),
            replaces(0, 26, b"nopqrstuvwxyzabcdefghijklm", 13),
        ],
    )?;
    assert_eq!(rt; went, 2);
    Ok(())
}

// What was merged for the draft is found again.
#[test]
fn a_draft_of_a_document_that_is_dropped_leaves_no_trace(rt: HostRuntime) -> Result<(), Fail> {
    let went = plays(
        rt.alloc(),
        &rt,
        0,
        &[
            at(
                0,
                runs(
                    0,
                    &[],
                    b"a\t1\nb\t1\nc\t1\nd\t1\ne\t1\nf\t1\ng\t1\nh\t1\n",
                    7,
                    b"a\t1\nb\t1\nc\t1\nd\t1\ne\t1\nf\t1\ng\t1\nh\t1\n",
                ),
            ),
            at(
                3,
                tries(
                    2,
                    &[],
                    b"x\t1\ny\t1\nz\t1\n",
                    6,
                    b"a\t1\nb\t1\nc\t1\nd\t1\ne\t1\nf\t1\ng\t1\nh\t1\n",
                ),
            ),
            at(
                3,
                runs(
                    2,
                    &[],
                    b"x\t1\ny\t1\nz\t1\n",
                    0,
                    b"a\t1\nb\t1\nc\t1\nf\t1\ng\t1\nh\t1\nx\t1\ny\t1\nz\t1\n",
                ),
            ),
        ],
    )?;
    assert_eq!(rt; went, 3);
    Ok(())
}

// For the drafts f g comes, with a root over it; then a with e; then nothing. The run merges a b with D, and makes the
// root.
#[test]
fn drafts_of_a_document_that_grow_and_shrink_are_dropped(rt: HostRuntime) -> Result<(), Fail> {
    let went = plays(
        rt.alloc(),
        &rt,
        0,
        &[
            at(
                0,
                runs(
                    0,
                    &[],
                    b"a\t1\nb\t1\nc\t1\nd\t1\ne\t1\n",
                    4,
                    b"a\t1\nb\t1\nc\t1\nd\t1\ne\t1\n",
                ),
            ),
            at(
                5,
                tries(
                    0,
                    &[],
                    b"f\t1\ng\t1\n",
                    2,
                    b"a\t1\nb\t1\nc\t1\nd\t1\ne\t1\n",
                ),
            ),
            at(1, tries(3, &[], b"", 1, b"a\t1\nb\t1\nc\t1\nd\t1\ne\t1\n")),
            at(0, tries(5, &[], b"", 0, b"a\t1\nb\t1\nc\t1\nd\t1\ne\t1\n")),
            at(
                2,
                runs(1, &[], b"D\t1\n", 2, b"D\t1\na\t1\nb\t1\nd\t1\ne\t1\n"),
            ),
        ],
    )?;
    assert_eq!(rt; went, 5);
    Ok(())
}

#[test]
fn a_tree_of_an_equal_document_merges_nothing(rt: HostRuntime) -> Result<(), Fail> {
    let went = plays(
        rt.alloc(),
        &rt,
        0,
        &[
            at(
                0,
                runs(0, &[], b"a\t1\nb\t1\nc\t1\n", 2, b"a\t1\nb\t1\nc\t1\n"),
            ),
            at(
                0,
                another_runs(b"a\t1\nb\t1\nc\t1\n", 0, b"a\t1\nb\t1\nc\t1\n"),
            ),
        ],
    )?;
    assert_eq!(rt; went, 2);
    Ok(())
}

// Nor do its oldest leaves go as in a window of buckets.
#[test]
fn a_document_has_no_leaves_behind_its_end(rt: HostRuntime) -> Result<(), Fail> {
    let went = plays(
        rt.alloc(),
        &rt,
        0,
        &[
            at(0, runs(0, &[], b"a\t1\nb\t1\n", 1, b"a\t1\nb\t1\n")),
            at(1, refuses(2, &[], b"c\t1\n", b"a\t1\nb\t1\n")),
            at(3, refuses(0, &[], b"c\t1\n", b"a\t1\nb\t1\n")),
            refuses(1, &[], b"", b"a\t1\nb\t1\n"),
            works_ahead(b"a\t1\nb\t1\n"),
        ],
    )?;
    assert_eq!(rt; went, 5);
    Ok(())
}

// There are 25 looks for the document; then 3 for the last group, which was open, and 2 over it; then 6 for two groups
// in the middle, and 7 over them.
#[test]
fn groups_away_from_an_edit_are_not_looked_up(rt: HostRuntime) -> Result<(), Fail> {
    let alloc = rt.alloc();
    let mut desk = document(alloc, 0)?;
    let went = takes_all(
        &mut desk,
        alloc,
        &rt,
        &[
            replaces(0, 0, LETTERS, 25),
            replaces(26, 0, b"B", 3),
            replaces(13, 1, b"B", 11),
        ],
    )?;
    assert_eq!(rt; went, 3);
    assert_eq!(rt; desk.looks(alloc)?, 43);
    Ok(())
}

// Nothing is found again.
#[test]
fn a_worn_lock_leaves_merges_of_a_document_loose(rt: HostRuntime) -> Result<(), Fail> {
    let went = plays(
        rt.alloc(),
        &rt,
        1 << 62,
        &[
            at(
                0,
                runs(0, &[], b"a\t1\nb\t1\nc\t1\n", 2, b"a\t1\nb\t1\nc\t1\n"),
            ),
            at(0, tries(1, &[], b"c\t1\n", 2, b"a\t1\nb\t1\nc\t1\n")),
            at(0, runs(1, &[], b"c\t1\n", 2, b"b\t1\nc\t1\n")),
        ],
    )?;
    assert_eq!(rt; went, 3);
    Ok(())
}

#[test]
fn equal_leaves_are_merged_again_at_a_worn_lock(rt: HostRuntime) -> Result<(), Fail> {
    let went = plays(
        rt.alloc(),
        &rt,
        1 << 62,
        &[at(0, runs(0, &[], b"a\t1\na\t1\na\t1\na\t1\n", 3, b"a\t1\n"))],
    )?;
    assert_eq!(rt; went, 1);
    Ok(())
}

#[test]
fn out_of_memory_the_document_stands(rt: HostRuntime) -> Result<(), Fail> {
    match plays(
        rt.alloc(),
        &rt,
        0,
        &[
            at(
                0,
                insists(0, &[], b"a\t1\nb\t1\nc\t1\n", b"a\t1\nb\t1\nc\t1\n"),
            ),
            at(
                1,
                insists(1, &[], b"d\t1\ne\t1\n", b"a\t1\nc\t1\nd\t1\ne\t1\n"),
            ),
            at(0, insists(2, &[], b"f\t1\n", b"c\t1\ne\t1\nf\t1\n")),
        ],
    ) {
        Ok(went) => assert_eq!(rt; went, 3),
        Err(AllocError) => (),
    }
    Ok(())
}

// A step of the walk: whether the root is the plain merge of the document's leaves. Up to three leaves go and come, and
// sometimes all leave.
fn goes_on<W: Wait>(
    desk: &mut Document,
    alloc: Global,
    rt: &W,
    step: usize,
    state: u32,
    window: &mut Vec<Sheet<Small>>,
) -> Result<bool, AllocError> {
    let first = if state >> 28 == 0 {
        0
    } else {
        (state >> 8) as usize % window.len().saturating_add(1)
    };
    let behind = window.len().saturating_sub(first);
    let gone = if state >> 28 == 0 {
        behind
    } else {
        ((state >> 16) as usize % 4).min(behind)
    };
    let news = leaves_of_step(alloc, step, (state >> 20) as usize % 4)?;
    let m = &mut CountMeter::new();
    splices_on(desk, alloc, rt, step, first, gone, news, window, m)
}

// How many of the steps of a walk succeeded.
fn walk<W: Wait>(alloc: Global, rt: &W, steps: usize) -> Result<usize, AllocError> {
    let mut desk = document(alloc, 0)?;
    let mut window = Vec::new(alloc);
    let mut state = 7u32;
    let mut right = 0usize;
    'steps: for step in 0..steps {
        state = chance(state);
        if goes_on(&mut desk, alloc, rt, step, state, &mut window)? {
            right = right.saturating_add(1);
        }
    }
    Ok(right)
}

#[test]
fn each_root_of_a_document_is_the_plain_merge_of_the_leaves(rt: HostRuntime) -> Result<(), Fail> {
    assert_eq!(rt; walk(rt.alloc(), &rt, 2000)?, 2000);
    Ok(())
}
