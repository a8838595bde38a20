//! Tests of named documents, with values computed by hand, and compared with the same documents one by one.
use crate::tests::{blocks, change, draw, drawn, push, spelled as spelled_one};
use crate::{Change, Document, EditFault, Files};
use record_text::{Name, Records, is_name};
use std::alloc::{AllocError, Global};

#[derive(Clone, Copy)]
enum Deed {
    Load,
    Edit(u32, u32),
    Remove,
}

fn named(alloc: Global, bytes: &[u8]) -> Result<Name, AllocError> {
    if is_name(bytes) {
        return Name::of(alloc, bytes);
    }
    Ok(Name::empty(alloc))
}

/// Does it to the file with this name, with these records.
fn does(
    alloc: Global,
    files: &mut Files,
    bytes: &[u8],
    deed: Deed,
    records: Records,
) -> Result<Result<Change, EditFault>, AllocError> {
    let name = named(alloc, bytes)?;
    match deed {
        Deed::Remove => Ok(Ok(files.remove(&name))),
        Deed::Load => {
            files.select(alloc, &name)?;
            Ok(files.load(alloc, records))
        }
        Deed::Edit(at, del) => {
            files.select(alloc, &name)?;
            Ok(files.edit(alloc, at, del, records))
        }
    }
}

/// The record, a given number of times.
fn times(alloc: Global, count: usize, bytes: &[u8]) -> Result<Records, AllocError> {
    let mut records = Records::new(alloc);
    'times: for _ in 0..count {
        push(&mut records, bytes)?;
    }
    Ok(records)
}

/// The text of the chunks of all files, with a `|` after each.
fn spelled(alloc: Global, files: &Files) -> Result<Vec<u8>, AllocError> {
    let mut text = Vec::new(alloc);
    'chunks: for i in 0..files.chunk_count() {
        text.extend_from_slice(files.chunk(i).records().text())?;
        text.push(b'|')?;
    }
    Ok(text)
}

#[test]
fn files_stand_in_name_order(rt: HostRuntime) -> Result<(), AllocError> {
    let alloc = rt.alloc();
    let mut files = Files::new(alloc);
    let many = Err(EditFault::TooMany);
    for (name, deed, count, item, want, text) in [
        (
            b"b".as_slice(),
            Deed::Load,
            1,
            b"k\t1".as_slice(),
            change(0, 0, 1),
            b"k\t1\n|".as_slice(),
        ),
        // The text of both would make one chunk, but no chunk spans two files.
        (
            b"a",
            Deed::Load,
            1,
            b"k\t2",
            change(0, 0, 1),
            b"k\t2\n|k\t1\n|",
        ),
        (
            b"ab",
            Deed::Edit(0, 0),
            1,
            b"x",
            change(1, 0, 1),
            b"k\t2\n|x\n|k\t1\n|",
        ),
        (b"ab", Deed::Edit(1, 1), 0, b"", many, b"k\t2\n|x\n|k\t1\n|"),
        (
            b"ab",
            Deed::Edit(1, 0),
            1,
            b"y",
            change(1, 1, 1),
            b"k\t2\n|x\ny\n|k\t1\n|",
        ),
        // Removing a file that is not there changes nothing, and it has no records.
        (
            b"aa",
            Deed::Remove,
            0,
            b"",
            change(1, 0, 0),
            b"k\t2\n|x\ny\n|k\t1\n|",
        ),
        (
            b"c",
            Deed::Edit(0, 1),
            0,
            b"",
            many,
            b"k\t2\n|x\ny\n|k\t1\n|",
        ),
        (
            b"c",
            Deed::Edit(1, 0),
            1,
            b"z",
            many,
            b"k\t2\n|x\ny\n|k\t1\n|",
        ),
        (
            b"c",
            Deed::Edit(0, 0),
            0,
            b"",
            change(3, 0, 0),
            b"k\t2\n|x\ny\n|k\t1\n|",
        ),
        (
            b"c",
            Deed::Load,
            0,
            b"",
            change(3, 0, 0),
            b"k\t2\n|x\ny\n|k\t1\n|",
        ),
        // A file that is left without records does not exist.
        (
            b"ab",
            Deed::Edit(0, 2),
            0,
            b"",
            change(1, 1, 0),
            b"k\t2\n|k\t1\n|",
        ),
        (b"b", Deed::Remove, 0, b"", change(1, 1, 0), b"k\t2\n|"),
        (b"", Deed::Load, 1, b"e", change(0, 0, 1), b"e\n|k\t2\n|"),
        (b"a", Deed::Load, 0, b"", change(1, 1, 0), b"e\n|"),
        (b"", Deed::Remove, 0, b"", change(0, 1, 0), b""),
    ] {
        let items = times(alloc, count, item)?;
        assert_eq!(rt; does(alloc, &mut files, name, deed, items)?, want);
        assert_eq!(rt; spelled(alloc, &files)?.as_slice(), text);
    }
    assert_eq!(rt; files.file_count(), 0);
    assert_eq!(rt; files.text_len(), 0);
    Ok(())
}

#[test]
fn an_edit_in_the_middle_file_leaves_the_others(rt: HostRuntime) -> Result<(), AllocError> {
    let alloc = rt.alloc();
    let mut files = Files::new(alloc);
    for (name, count, before) in [(b"c".as_slice(), 2, 0), (b"", 3, 0), (b"b", 4, 3)] {
        let all = blocks(alloc, count)?;
        let loaded = does(alloc, &mut files, name, Deed::Load, all)?;
        assert_eq!(rt; loaded, change(before, 0, count));
    }
    // The second block becomes `x`, which the third one then begins with.
    let x = times(alloc, 1, b"x")?;
    assert_eq!(rt; files.edit(alloc, 7, 7, x), change(3, 3, 2));
    assert_eq!(rt; files.record_count(), 22);
    assert_eq!(rt; files.text_len(), 8 * 609 + 2);
    for (i, count) in [7, 7, 7, 7, 8, 7, 7, 7].iter().enumerate() {
        if i < files.chunk_count() {
            assert_eq!(rt; files.chunk(i).records().len(), *count);
        }
    }
    assert_eq!(rt; files.chunk_count(), 8);
    Ok(())
}

/// The four letters with this number.
fn letters(i: usize) -> [u8; 4] {
    let all = b"abcdefghijklmnop";
    [
        all[i / 4096 % 16],
        all[i / 256 % 16],
        all[i / 16 % 16],
        all[i % 16],
    ]
}

#[test]
fn one_file_more_than_65536_is_too_many(rt: HostRuntime) -> Result<(), AllocError> {
    let alloc = rt.alloc();
    let mut files = Files::new(alloc);
    'files: for i in 0..65536 {
        let x = times(alloc, 1, b"x")?;
        let loaded = does(alloc, &mut files, &letters(i), Deed::Load, x)?;
        assert_eq!(rt; loaded, change(i, 0, 1));
    }
    let many = Err(EditFault::TooMany);
    for (name, deed, count, item, want) in [
        (b"onemore".as_slice(), Deed::Load, 1, b"x".as_slice(), many),
        (b"onemore", Deed::Edit(0, 0), 1, b"x", many),
        (b"onemore", Deed::Load, 0, b"", change(60749, 0, 0)),
        (b"onemore", Deed::Edit(0, 0), 0, b"", change(60749, 0, 0)),
        // A file may grow, and one that leaves makes room.
        (b"pppp", Deed::Edit(1, 0), 1, b"y", change(65535, 1, 1)),
        (b"aaaa", Deed::Remove, 0, b"", change(0, 1, 0)),
        (b"onemore", Deed::Edit(0, 0), 1, b"z", change(60748, 0, 1)),
        (b"aaaa", Deed::Load, 1, b"x", many),
    ] {
        let items = times(alloc, count, item)?;
        assert_eq!(rt; does(alloc, &mut files, name, deed, items)?, want);
    }
    assert_eq!(rt; files.file_count(), 65536);
    assert_eq!(rt; files.text_len(), 131074);
    for (i, text) in [(60748, b"z\n".as_slice()), (65535, b"x\ny\n"), (0, b"x\n")] {
        if i < files.chunk_count() {
            assert_eq!(rt; files.chunk(i).records().text(), text);
        }
    }
    Ok(())
}

/// Does it to a document alone; `before` chunks of others come before it.
fn does_alone(
    alloc: Global,
    document: &mut Document,
    deed: Deed,
    records: Records,
    before: usize,
) -> Result<Change, EditFault> {
    let own = match deed {
        Deed::Remove => {
            let gone = document.chunk_count();
            *document = Document::new(alloc);
            change(0, gone, 0)
        }
        Deed::Load => document.load(alloc, records),
        Deed::Edit(at, del) => document.edit(alloc, at, del, records),
    };
    match own {
        Ok(change) => Ok(Change {
            first: change.first.wrapping_add(before),
            ..change
        }),
        Err(fault) => Err(fault),
    }
}

/// A deed at a document of `count` records, sometimes past its end.
fn drawn_deed(state: &mut u64, count: usize) -> Deed {
    match draw(state, 10) {
        0 => Deed::Remove,
        1 => Deed::Load,
        _ => {
            let at = draw(state, (count as u64).min(1000000) + 2) as u32;
            Deed::Edit(at, draw(state, 8) as u32)
        }
    }
}

#[test]
fn a_walk_over_files_is_that_of_each_document(rt: HostRuntime) -> Result<(), AllocError> {
    let alloc = rt.alloc();
    let mut state = 5;
    let mut files = Files::new(alloc);
    let mut documents = [
        Document::new(alloc),
        Document::new(alloc),
        Document::new(alloc),
    ];
    for step in 0..120 {
        let place = draw(&mut state, 3) as usize;
        let mut before = 0usize;
        let mut text = Vec::new(alloc);
        let deed = drawn_deed(&mut state, documents[place].record_count());
        let items = drawn(alloc, &mut state, 12)?;
        let got = does(
            alloc,
            &mut files,
            &letters(7 * place),
            deed,
            items.copy(alloc)?,
        )?;
        'before: for k in 0..place {
            before = before.wrapping_add(documents[k].chunk_count());
        }
        let want = does_alone(alloc, &mut documents[place], deed, items, before);
        assert_eq!(rt; got, want, "step {step}");
        'documents: for k in 0..3 {
            text.extend_from_slice(&spelled_one(alloc, &documents[k])?)?;
        }
        assert_eq!(rt;
            spelled(alloc, &files)?.as_slice(),
            text.as_slice(),
            "step {step}"
        );
    }
    Ok(())
}
