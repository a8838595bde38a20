//! The jobs as a program calls them, through the bound.
ghost use Rattle.std.specs.Prelude.{◌≡◌, true};

use crate::{Bytes, Count, Docs, Index, Latest};
use job_laws::{CountMeter, Counts, Emit, Job, Key, Meter, Swaps, merging_commutes};
use std::alloc::{AllocError, Global};
use std::test::Fail;

// The pairs of a record as text; `None` if the job does not accept it.
fn pairs<J: Job<Val = u64>>(
    alloc: Global,
    job: &J,
    r: &[u8],
    m: &mut J::Meter,
) -> Result<String, AllocError> {
    let mut out = Emit::new(alloc);
    if job.accepts(r) {
        job.map(alloc, r, &mut out, m)?;
    }
    let mut text = String::new(alloc);
    for i in 0..out.len() {
        let (bytes, value) = out.pair(i);
        let n = *value;
        text.push_str(format!(in alloc; "{bytes:?}={n} ")?.as_str())?;
    }
    Ok(text)
}

fn swaps<J: Swaps>(_job: &J) {
    merging_commutes::<J>();
}

#[test]
fn each_word_stands_with_one(rt: HostRuntime) -> Result<(), Fail> {
    let job = Count::new();
    let mut m = CountMeter::new();
    assert_eq!(rt;
        pairs(rt.alloc(), &job, b"a b a", &mut m)?.as_str(),
        "[97]=1 [98]=1 [97]=1 "
    );
    assert_eq!(rt; pairs(rt.alloc(), &job, b"", &mut m)?.as_str(), "");
    assert_eq!(rt;
        pairs(rt.alloc(), &job, b"--\t\xc3\xa9", &mut m)?.as_str(),
        ""
    );
    assert_eq!(rt;
        pairs(rt.alloc(), &job, b",Az09@[`{/:", &mut m)?.as_str(),
        "[65, 122, 48, 57]=1 "
    );
    assert_eq!(rt;
        m.counts(),
        Counts {
            maps: 4,
            merges: 0,
            joins: 0
        }
    );
    assert_eq!(rt; job.setting(), 0);
    swaps(&job);
    Ok(())
}

#[test]
fn a_record_of_65535_bytes_is_accepted(rt: HostRuntime) -> Result<(), Fail> {
    let job: Count<CountMeter> = Count::new();
    let mut m = CountMeter::new();
    let long = [b'x'; 65536];
    assert!(rt; !job.accepts(&long));
    assert!(rt; job.accepts(&long[..65535]));
    let mut out = Emit::new(rt.alloc());
    job.map(rt.alloc(), &long[..65535], &mut out, &mut m)?;
    assert_eq!(rt; out.len(), 1);
    for i in 0..out.len() {
        assert_eq!(rt; out.pair(i).0.len(), 65535);
    }
    Ok(())
}

#[test]
fn counts_add_up_to_their_end(rt: HostRuntime) -> Result<(), Fail> {
    let job = Count::new();
    let mut m = CountMeter::new();
    assert_eq!(rt; job.combine(rt.alloc(), &u64::MAX, &1, &mut m)?, u64::MAX);
    assert_eq!(rt; job.combine(rt.alloc(), &2, &3, &mut m)?, 5);
    assert_eq!(rt;
        m.counts(),
        Counts {
            maps: 0,
            merges: 0,
            joins: 2
        }
    );
    assert_eq!(rt; Count::<CountMeter>::copy(rt.alloc(), &5)?, 5);
    assert!(rt; Count::<CountMeter>::same(&5, &5));
    assert!(rt; !Count::<CountMeter>::same(&5, &6));
    let mut out = Vec::new(rt.alloc());
    out.push(9)?;
    Count::<CountMeter>::encode(&2, &mut out)?;
    assert_eq!(rt; out.as_slice(), [9, 0, 0, 0, 0, 0, 0, 0, 2].as_slice());
    Ok(())
}

#[test]
fn a_line_has_the_word_and_its_count(rt: HostRuntime) -> Result<(), Fail> {
    let job: Count<CountMeter> = Count::new();
    let key = Key::of(rt.alloc(), b"word")?;
    let mut out = Vec::new(rt.alloc());
    job.line(rt.alloc(), &key, &0, &mut out)?;
    job.line(rt.alloc(), &key, &u64::MAX, &mut out)?;
    assert_eq!(rt;
        out.as_slice(),
        b"word\t0\nword\t18446744073709551615\n".as_slice()
    );
    Ok(())
}

#[test]
fn the_latest_value_stays(rt: HostRuntime) -> Result<(), Fail> {
    let job = Latest::new();
    let mut m = CountMeter::new();
    let mut out = Emit::new(rt.alloc());
    if job.accepts(b"key\tva\tlue") {
        job.map(rt.alloc(), b"key\tva\tlue", &mut out, &mut m)?;
    }
    let mut lines = Vec::new(rt.alloc());
    for i in 0..out.len() {
        let (bytes, value) = out.pair(i);
        let key = Key::of(rt.alloc(), bytes)?;
        job.line(rt.alloc(), &key, value, &mut lines)?;
        let later = Bytes::of(rt.alloc(), b"")?;
        let joined = job.combine(rt.alloc(), value, &later, &mut m)?;
        job.line(rt.alloc(), &key, &joined, &mut lines)?;
        assert!(rt; Latest::<CountMeter>::same(&joined, &later));
        assert!(rt; !Latest::<CountMeter>::same(&joined, value));
        let again = Latest::<CountMeter>::copy(rt.alloc(), value)?;
        Latest::<CountMeter>::encode(&again, &mut lines)?;
    }
    assert_eq!(rt;
        lines.as_slice(),
        b"key\tva\tlue\nkey\t\nva\tlue".as_slice()
    );
    assert_eq!(rt;
        m.counts(),
        Counts {
            maps: 1,
            merges: 0,
            joins: 1
        }
    );
    assert_eq!(rt; job.setting(), 0);
    Ok(())
}

#[test]
fn latest_asks_for_a_key_and_a_tab(rt: HostRuntime) -> Result<(), Fail> {
    let job: Latest<CountMeter> = Latest::new();
    assert!(rt; !job.accepts(b""));
    assert!(rt; !job.accepts(b"no tab"));
    assert!(rt; !job.accepts(b"\tno key"));
    assert!(rt; job.accepts(b"key\t"));
    assert!(rt; job.accepts(b"key\t\t"));
    let mut long = [b'x'; 65536];
    assert!(rt; !job.accepts(&long));
    long[1] = b'\t';
    assert!(rt; !job.accepts(&long));
    assert!(rt; job.accepts(&long[..65535]));
    Ok(())
}

#[test]
fn index_asks_for_a_number_and_a_tab(rt: HostRuntime) -> Result<(), Fail> {
    let job: Index<CountMeter> = Index::new();
    assert!(rt; job.accepts(b"0\t"));
    assert!(rt; job.accepts(b"4294967295\tx"));
    for r in [
        b"4294967296\tx".as_slice(),
        b"07\tx",
        b"7 x",
        b"\tx",
        b"7",
        b"x\t7",
        b"+7\tx",
    ] {
        assert!(rt; !job.accepts(r), "at {r:?}");
    }
    let mut long = [b'7'; 65536];
    long[1] = b'\t';
    assert!(rt; !job.accepts(&long));
    assert!(rt; job.accepts(&long[..65535]));
    Ok(())
}

#[test]
fn each_word_stands_with_its_document(rt: HostRuntime) -> Result<(), Fail> {
    let job = Index::new();
    let mut m = CountMeter::new();
    let mut out = Emit::new(rt.alloc());
    for r in [b"7\tb a\tb".as_slice(), b"0\t,\t", b"4294967295\ta"] {
        if job.accepts(r) {
            job.map(rt.alloc(), r, &mut out, &mut m)?;
        }
    }
    let mut text = String::new(rt.alloc());
    for i in 0..out.len() {
        let (word, docs) = out.pair(i);
        let documents = docs.docs();
        text.push_str(format!(in rt.alloc(); "{word:?}={documents:?} ")?.as_str())?;
    }
    assert_eq!(rt;
        text.as_str(),
        "[98]=[7] [97]=[7] [98]=[7] [97]=[4294967295] "
    );
    assert_eq!(rt;
        m.counts(),
        Counts {
            maps: 3,
            merges: 0,
            joins: 0
        }
    );
    assert_eq!(rt; job.setting(), 0);
    swaps(&job);
    Ok(())
}

#[test]
fn documents_are_joined_written_and_encoded(rt: HostRuntime) -> Result<(), Fail> {
    let alloc = rt.alloc();
    let job = Index::new();
    let mut m = CountMeter::new();
    let seven = Docs::of(alloc, 7)?;
    let last = Docs::of(alloc, 4294967295)?;
    let both = job.combine(alloc, &last, &seven, &mut m)?;
    let key = Key::of(alloc, b"a")?;
    let mut text = Vec::new(alloc);
    job.line(alloc, &key, &both, &mut text)?;
    job.line(alloc, &key, &seven, &mut text)?;
    Index::<CountMeter>::encode(&both, &mut text)?;
    assert_eq!(rt;
        text.as_slice(),
        b"a\t7,4294967295\na\t7\n\x00\x00\x00\x07\xff\xff\xff\xff".as_slice()
    );
    let again = Index::<CountMeter>::copy(alloc, &both)?;
    assert!(rt; Index::<CountMeter>::same(&again, &both));
    assert!(rt; !Index::<CountMeter>::same(&seven, &both));
    assert_eq!(rt;
        m.counts(),
        Counts {
            maps: 0,
            merges: 0,
            joins: 1
        }
    );
    Ok(())
}

// The documents of a list, each joined to those before it.
fn docs_of(alloc: Global, docs: &[u32]) -> Result<Docs, AllocError> {
    let mut all = Docs::of(alloc, 5)?;
    for doc in docs {
        all = all.union(alloc, &Docs::of(alloc, *doc)?)?;
    }
    Ok(all)
}

#[test]
fn a_union_has_each_document_once_in_its_place(rt: HostRuntime) -> Result<(), Fail> {
    let alloc = rt.alloc();
    let left = docs_of(alloc, &[9, 2])?;
    let right = docs_of(alloc, &[4294967295, 0, 7])?;
    assert_eq!(rt; left.docs(), [2, 5, 9].as_slice());
    assert_eq!(rt;
        left.union(alloc, &right)?.docs(),
        [0, 2, 5, 7, 9, 4294967295].as_slice()
    );
    assert_eq!(rt;
        right.union(alloc, &left)?.docs(),
        [0, 2, 5, 7, 9, 4294967295].as_slice()
    );
    assert_eq!(rt; left.union(alloc, &left)?.docs(), left.docs());
    Ok(())
}

#[test]
fn bytes_are_shared_and_may_be_none(rt: HostRuntime) -> Result<(), Fail> {
    let none = Bytes::of(rt.alloc(), b"")?;
    assert!(rt; none.bytes().is_empty());
    let long = [b'x'; 65535];
    let bytes = Bytes::of(rt.alloc(), &long)?;
    assert_eq!(rt; bytes.share()?.bytes(), long.as_slice());
    Ok(())
}
