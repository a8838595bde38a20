//! Tests of documents, with values computed by hand, and compared with a plain program that cuts everything from
//! nothing.
ghost use Rattle.std.specs.Prelude.{◌<◌};

use crate::{Change, Document, EditFault};
use marker_chunker::cut_all;
use record_text::{Records, is_record};
use std::alloc::{AllocError, Global};

/// Adds a record, if there is room.
pub fn push(records: &mut Records, bytes: &[u8]) -> Result<(), AllocError> {
    if is_record(bytes) && records.len() < 4294967295 {
        records.push(bytes)?;
    }
    Ok(())
}

pub fn records(alloc: Global, items: &[&[u8]]) -> Result<Records, AllocError> {
    let mut records = Records::new(alloc);
    'items: for item in items {
        push(&mut records, item)?;
    }
    Ok(records)
}

/// Six records of 100 bytes `-` and the marker `n-`, `count` times: each time they are a chunk of 609 bytes of text.
pub fn blocks(alloc: Global, count: usize) -> Result<Records, AllocError> {
    let mut records = Records::new(alloc);
    let dashes = [b'-'; 100];
    'blocks: for i in 0..count.min(100000) * 7 {
        if i % 7 == 6 {
            push(&mut records, b"n-")?;
        } else {
            push(&mut records, &dashes)?;
        }
    }
    Ok(records)
}

pub fn change(first: usize, gone: usize, fresh: usize) -> Result<Change, EditFault> {
    Ok(Change { first, gone, fresh })
}

/// The text of the chunks, with a `|` after each.
pub fn spelled(alloc: Global, document: &Document) -> Result<Vec<u8>, AllocError> {
    let mut text = Vec::new(alloc);
    'chunks: for i in 0..document.chunk_count() {
        text.extend_from_slice(document.chunk(i).records().text())?;
        text.push(b'|')?;
    }
    Ok(text)
}

#[test]
fn an_edit_splices_records(rt: HostRuntime) -> Result<(), AllocError> {
    let alloc = rt.alloc();
    let mut document = Document::new(alloc);
    let start = records(alloc, &[b"a", b"b"])?;
    assert_eq!(rt; document.load(alloc, start), change(0, 0, 1));
    let c = [b"c".as_slice()];
    let many = Err(EditFault::TooMany);
    for (at, del, ins, want, text) in [
        (
            2,
            0,
            c.as_slice(),
            change(0, 1, 1),
            b"a\nb\nc\n|".as_slice(),
        ),
        // One past the end, in each of its forms.
        (3, 1, &[], many, b"a\nb\nc\n|"),
        (4, 0, &c, many, b"a\nb\nc\n|"),
        (0, 4, &[], many, b"a\nb\nc\n|"),
        (4294967295, 4294967295, &[], many, b"a\nb\nc\n|"),
        // At the end, of nothing, and of everything.
        (3, 0, &c, change(0, 1, 1), b"a\nb\nc\nc\n|"),
        (4, 0, &[], change(0, 1, 1), b"a\nb\nc\nc\n|"),
        (0, 0, &[], change(0, 0, 0), b"a\nb\nc\nc\n|"),
        (0, 4, &[], change(0, 1, 0), b""),
        (0, 0, &[], change(0, 0, 0), b""),
        (0, 1, &[], many, b""),
    ] {
        assert_eq!(rt; document.edit(alloc, at, del, records(alloc, ins)?), want);
        assert_eq!(rt; spelled(alloc, &document)?.as_slice(), text);
    }
    Ok(())
}

#[test]
fn an_edit_cuts_where_nothing_would(rt: HostRuntime) -> Result<(), AllocError> {
    let alloc = rt.alloc();
    let long = [b'-'; 40000];
    let mut document = Document::new(alloc);
    let start = records(alloc, &[&long, &long, b"x"])?;
    assert_eq!(rt; document.load(alloc, start), change(0, 0, 2));
    let y = records(alloc, &[b"y"])?;
    assert_eq!(rt; document.edit(alloc, 1, 1, y), change(0, 2, 1));
    assert_eq!(rt; document.chunk_count(), 1);
    assert_eq!(rt; document.record_count(), 3);
    assert_eq!(rt; document.text_len(), 40005);
    Ok(())
}

#[test]
fn a_load_replaces_all_chunks(rt: HostRuntime) -> Result<(), AllocError> {
    let alloc = rt.alloc();
    let mut document = Document::new(alloc);
    // The same chunks, loaded again, are all new ones.
    for (count, gone) in [(3, 0), (2, 3), (2, 2), (0, 2), (0, 0)] {
        let loaded = document.load(alloc, blocks(alloc, count)?);
        assert_eq!(rt; loaded, change(0, gone, count));
        assert_eq!(rt; document.chunk_count(), count);
        assert_eq!(rt; document.record_count(), 7 * count);
        assert_eq!(rt; document.text_len(), 609 * count as u64);
    }
    Ok(())
}

/// An edit when other files have 268,435,456 bytes of text less 6, so that the document has room for 6.
fn edit_beside(
    alloc: Global,
    document: &mut Document,
    at: u32,
    del: u32,
    ins: &Records,
) -> Result<Change, EditFault> {
    if document.text_len() > 6 {
        return Err(EditFault::Mem);
    }
    document.edit_beside(alloc, at, del, ins, 268435450)
}

#[test]
fn text_is_limited_with_that_of_other_files(rt: HostRuntime) -> Result<(), AllocError> {
    let alloc = rt.alloc();
    let mut document = Document::new(alloc);
    let large = records(alloc, &[b"abc", b"de"])?;
    let refused = document.load_beside(alloc, &large, 268435450);
    assert_eq!(rt; refused, Err(EditFault::WindowLarge));
    assert_eq!(rt; document.record_count(), 0);
    for (at, del, ins, want) in [
        (0, 0, [b"ab".as_slice(), b"cd"].as_slice(), change(0, 0, 1)),
        (1, 0, &[b""], Err(EditFault::WindowLarge)),
        // What is replaced does not count, and `TooMany` comes first.
        (1, 1, &[b"", b"e"], change(0, 1, 1)),
        (3, 1, &[b"abc"], Err(EditFault::TooMany)),
        (0, 3, &[b"abcdef"], Err(EditFault::WindowLarge)),
        (0, 3, &[b"abcde"], change(0, 1, 1)),
    ] {
        let ins = records(alloc, ins)?;
        assert_eq!(rt; edit_beside(alloc, &mut document, at, del, &ins), want);
    }
    assert_eq!(rt;
        spelled(alloc, &document)?.as_slice(),
        b"abcde\n|".as_slice()
    );
    Ok(())
}

/// How many records and bytes of text the fresh chunks of a change have: only these were read and copied by the edit.
fn cut_again(document: &Document, change: &Change) -> (usize, u64) {
    let mut count = 0usize;
    let mut size = 0u64;
    'fresh: for i in 0..document.chunk_count() {
        if change.first <= i && i - change.first < change.fresh {
            let records = document.chunk(i).records();
            count = count.wrapping_add(records.len());
            size = size.wrapping_add(records.text_len());
        }
    }
    (count, size)
}

#[test]
fn an_edit_cuts_its_own_place_again_in_any_document(rt: HostRuntime) -> Result<(), AllocError> {
    let alloc = rt.alloc();
    // Twenty records from the start of the middle block on: the block before is cut again, the marker that is left of the
    // third block has too little text before it, and the fourth ends where it did.
    for (count, at, middle) in [(10, 35, 5), (100, 350, 50), (1000, 3500, 500)] {
        let mut document = Document::new(alloc);
        let loaded = document.load(alloc, blocks(alloc, count)?);
        assert_eq!(rt; loaded, change(0, 0, count));
        let twenty = records(alloc, &[b"x".as_slice(); 20])?;
        let Ok(edited) = document.edit(alloc, at, 20, twenty) else {
            return Err(AllocError);
        };
        assert_eq!(rt; Ok(edited), change(middle - 1, 5, 2));
        // Seven records of the block before, twenty, one marker and seven of the fourth block.
        assert_eq!(rt; cut_again(&document, &edited), (35, 609 + 40 + 3 + 609));
        assert_eq!(rt; document.chunk_count(), count - 3);
    }
    Ok(())
}

/// The plain document: the same records, all of them cut from nothing after each edit.
#[derive(Drop)]
struct Plain {
    records: Records,
    ends: Vec<usize>,
}

/// The number of records in the first `chunks` chunks.
fn reach(ends: &[usize], chunks: usize) -> usize {
    if chunks == 0 || chunks > ends.len() {
        return 0;
    }
    ends[chunks - 1]
}

impl Plain {
    fn of(alloc: Global, records: Records) -> Result<Plain, AllocError> {
        let ends = cut_all(alloc, &records)?;
        Ok(Plain { records, ends })
    }

    fn spliced(
        &self,
        alloc: Global,
        at: usize,
        del: usize,
        ins: &Records,
    ) -> Result<Plain, AllocError> {
        let mut records = Records::new(alloc);
        'before: for i in 0..at.min(self.records.len()) {
            push(&mut records, self.records.get(i))?;
        }
        'ins: for i in 0..ins.len() {
            push(&mut records, ins.get(i))?;
        }
        'back: for i in at.saturating_add(del)..self.records.len() {
            push(&mut records, self.records.get(i))?;
        }
        Plain::of(alloc, records)
    }

    fn spelled(&self, alloc: Global) -> Result<Vec<u8>, AllocError> {
        let mut text = Vec::new(alloc);
        let mut next = 0;
        'records: for i in 0..self.records.len() {
            text.extend_from_slice(self.records.get(i))?;
            text.push(b'\n')?;
            if next < self.ends.len() && self.ends[next] == i + 1 {
                text.push(b'|')?;
                next += 1;
            }
        }
        Ok(text)
    }

    /// The change from these chunks to those of `news`, found by trying each number of chunks that go.
    fn change(&self, at: usize, del: usize, ins: usize, news: &Plain) -> Option<Change> {
        let first = if at == 0 {
            0
        } else {
            self.ends.partition_point(|end| *end < at)
        };
        'gone: for last in first..=self.ends.len() {
            let old = reach(self.ends.as_slice(), last);
            if at.wrapping_add(del) <= old {
                let new = old.wrapping_sub(del).wrapping_add(ins);
                'fresh: for q in first..=news.ends.len() {
                    if reach(news.ends.as_slice(), q) == new {
                        return Some(Change {
                            first,
                            gone: last - first,
                            fresh: q - first,
                        });
                    }
                }
            }
        }
        None
    }
}

/// The next draw of a linear congruential generator, below `bound`.
pub fn draw(state: &mut u64, bound: u64) -> u64
    requires { 0 < bound }
    ensures { result < bound }
{
    *state = state
        .wrapping_mul(6364136223846793005)
        .wrapping_add(1442695040888963407);
    (*state >> 33) % bound
}

/// Fewer than `most` records, many of them markers, some long.
pub fn drawn(alloc: Global, state: &mut u64, most: u64) -> Result<Records, AllocError>
    requires { 0 < most }
{
    let mut records = Records::new(alloc);
    let long = [b'-'; 30000];
    let dashes = [b'-'; 100];
    'records: for _ in 0..draw(state, most) {
        let size = draw(state, 100) as usize;
        match draw(state, 40) {
            0 => push(&mut records, &long)?,
            1 => push(&mut records, b"")?,
            2..=6 => push(&mut records, b"n-")?,
            _ => push(&mut records, &dashes[..size])?,
        }
    }
    Ok(records)
}

/// A place and a number of records from there on, mostly few, in a document of `count` records.
fn drawn_place(state: &mut u64, count: usize, few: u64) -> (u32, u32)
    requires { 0 < few }
{
    if count > 1000000 {
        return (0, 0);
    }
    let at = draw(state, count as u64 + 1);
    let del = draw(state, few).min(count as u64 - at);
    (at as u32, del as u32)
}

#[test]
fn a_walk_of_edits_is_cut_as_from_nothing(rt: HostRuntime) -> Result<(), AllocError> {
    let alloc = rt.alloc();
    let mut state = 2;
    let start = drawn(alloc, &mut state, 150)?;
    let mut plain = Plain::of(alloc, start.copy(alloc)?)?;
    let mut document = Document::new(alloc);
    assert_eq!(rt; document.load(alloc, start), change(0, 0, plain.ends.len()));
    for step in 0..100 {
        let few = if step % 16 == 0 { 60 } else { 6 };
        let (at, del) = drawn_place(&mut state, document.record_count(), few);
        let ins = drawn(alloc, &mut state, few)?;
        let news = plain.spliced(alloc, at as usize, del as usize, &ins)?;
        let want = plain.change(at as usize, del as usize, ins.len(), &news);
        assert_eq!(rt;
            document.edit(alloc, at, del, ins).ok(),
            want,
            "step {step}"
        );
        let text = spelled(alloc, &document)?;
        assert_eq!(rt;
            text.as_slice(),
            news.spelled(alloc)?.as_slice(),
            "step {step}"
        );
        plain = news;
    }
    Ok(())
}
