//! The job as a program calls it, through the bound.
use crate::{Extent, Extremes};
use job_laws::{CountMeter, Counts, Emit, Job, Key, Meter, Swaps, merging_commutes};
use std::alloc::{AllocError, Global};
use std::test::Fail;

fn swaps<J: Swaps>(_job: &J) {
    merging_commutes::<J>();
}

// The pairs that the accepted ones of the records emit, each as its key and what its value is encoded as.
fn pairs<J: Job>(
    alloc: Global,
    job: &J,
    records: &[&[u8]],
    m: &mut J::Meter,
) -> Result<Vec<u8>, AllocError> {
    let mut out = Emit::new(alloc);
    for r in records {
        if job.accepts(r) {
            job.map(alloc, r, &mut out, m)?;
        }
    }
    let mut text = Vec::new(alloc);
    for i in 0..out.len() {
        let (key, value) = out.pair(i);
        text.extend_from_slice(key)?;
        J::encode(value, &mut text)?;
        text.push(b';')?;
    }
    Ok(text)
}

#[test]
fn a_record_has_a_key_and_a_number(rt: HostRuntime) -> Result<(), Fail> {
    let job = Extremes::new();
    let mut m = CountMeter::new();
    for r in [
        b"key\t4294967296".as_slice(),
        b"key\t01",
        b"key\t-1",
        b"key\t1\t2",
        b"key\t",
        b"\t1",
        b"key 1",
        b"key",
        b"",
    ] {
        assert!(rt; !job.accepts(r), "at {r:?}");
    }
    let records = [b"/a b\t258".as_slice(), b"k\t0", b"k\t4294967295", b"k"];
    assert_eq!(rt;
        pairs(rt.alloc(), &job, records.as_slice(), &mut m)?.as_slice(),
        b"/a b\x00\x00\x01\x02\x00\x00\x01\x02;k\x00\x00\x00\x00\x00\x00\x00\x00;k\xff\xff\xff\xff\xff\xff\xff\xff;".as_slice()
    );
    assert_eq!(rt; job.setting(), 0);
    assert_eq!(rt; m.counts().maps, 3);
    swaps(&job);
    Ok(())
}

#[test]
fn a_record_of_65535_bytes_is_accepted(rt: HostRuntime) -> Result<(), Fail> {
    let job: Extremes<CountMeter> = Extremes::new();
    let mut long = [b'7'; 65536];
    long[65533] = b'\t';
    assert!(rt; !job.accepts(&long));
    assert!(rt; job.accepts(&long[..65535]));
    Ok(())
}

#[test]
fn the_least_and_the_greatest_stay(rt: HostRuntime) -> Result<(), Fail> {
    let alloc = rt.alloc();
    let job = Extremes::new();
    let mut m = CountMeter::new();
    let low = Extent {
        least: 2,
        greatest: 9,
    };
    let high = Extent {
        least: 7,
        greatest: 10,
    };
    let both = Extent {
        least: 2,
        greatest: 10,
    };
    assert_eq!(rt; job.combine(alloc, &low, &high, &mut m)?, both);
    assert_eq!(rt; job.combine(alloc, &high, &low, &mut m)?, both);
    assert_eq!(rt;
        m.counts(),
        Counts {
            maps: 0,
            merges: 0,
            joins: 2
        }
    );
    assert_eq!(rt; Extremes::<CountMeter>::copy(alloc, &low)?, low);
    assert!(rt; Extremes::<CountMeter>::same(&low, &low));
    assert!(rt; !Extremes::<CountMeter>::same(&low, &both));
    assert!(rt; !Extremes::<CountMeter>::same(&high, &both));
    Ok(())
}

#[test]
fn a_line_has_the_key_the_least_and_the_greatest(rt: HostRuntime) -> Result<(), Fail> {
    let job: Extremes<CountMeter> = Extremes::new();
    let key = Key::of(rt.alloc(), b"/a b")?;
    let all = Extent {
        least: 0,
        greatest: u32::MAX,
    };
    let mut out = Vec::new(rt.alloc());
    job.line(rt.alloc(), &key, &all, &mut out)?;
    assert_eq!(rt; out.as_slice(), b"/a b\t0\t4294967295\n".as_slice());
    Ok(())
}
