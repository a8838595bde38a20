//! The job as a program calls it, through the bound.
ghost use Rattle.std.specs.Prelude.{◌≤◌, ℕ, length, IfOk};
ghost use Rattle.job_topk.specs.TopK.{topk_good};

use crate::{Members, TopK};
use job_laws::{CountMeter, Counts, Emit, Job, Key, Meter, Swaps, merging_commutes};
use jobs_basic::Bytes;
use std::alloc::{AllocError, Global};
use std::test::Fail;

fn swaps<J: Swaps>(_job: &J) {
    merging_commutes::<J>();
}

// The pairs that the accepted records emit, each as its key and the encoding of its value.
fn pairs<J: Job>(
    alloc: Global,
    job: &J,
    records: &[&[u8]],
    m: &mut J::Meter,
) -> Result<Vec<u8>, AllocError> {
    let mut out = Emit::new(alloc);
    for r in records {
        if job.accepts(r) {
            job.map(alloc, r, &mut out, m)?;
        }
    }
    let mut text = Vec::new(alloc);
    for i in 0..out.len() {
        let (key, value) = out.pair(i);
        text.extend_from_slice(key)?;
        J::encode(value, &mut text)?;
        text.push(b';')?;
    }
    Ok(text)
}

// The list of one member, which is good at each setting.
fn member(alloc: Global, score: u32, item: &[u8]) -> Result<Members, AllocError>
    requires { length item.now ≤ 65535 }
    ensures { IfOk result (λ m. (k : ℕ) → topk_good k m) }
{
    let item = Bytes::of(alloc, item)?;
    Members::of(alloc, score, item)
}

// Both joined, which are good again.
fn join(
    alloc: Global,
    job: &TopK<CountMeter>,
    a: &Members,
    b: &Members,
    m: &mut CountMeter,
) -> Result<Members, AllocError>
    requires left { topk_good job.now a.now }
    requires right { topk_good job.now b.now }
    ensures { IfOk result (λ v. topk_good job.now v) }
{
    job.combine(alloc, a, b, m)
}

// The members as text.
fn shown(alloc: Global, members: &Members) -> Result<String, AllocError> {
    let mut text = String::new(alloc);
    for (score, item) in members.members() {
        let bytes = item.bytes();
        text.push_str(format!(in alloc; "{score}{bytes:?} ")?.as_str())?;
    }
    Ok(text)
}

#[test]
fn k_is_1_to_1000(rt: HostRuntime) -> Result<(), Fail> {
    assert!(rt; TopK::<CountMeter>::new(0).is_none());
    assert!(rt; TopK::<CountMeter>::new(1).is_some());
    assert!(rt; TopK::<CountMeter>::new(1000).is_some());
    assert!(rt; TopK::<CountMeter>::new(1001).is_none());
    Ok(())
}

#[test]
fn a_record_has_a_group_a_score_and_an_item(rt: HostRuntime) -> Result<(), Fail> {
    let mut m = CountMeter::new();
    if let Some(job) = TopK::new(2) {
        for r in [
            b"g\t4294967296\ti".as_slice(),
            b"g\t01\ti",
            b"g\t-1\ti",
            b"\t1\ti",
            b"g\t1",
            b"g\t\ti",
            b"g",
            b"",
        ] {
            assert!(rt; !job.accepts(r), "at {r:?}");
        }
        let records = [
            b"g\t258\ta\tb".as_slice(),
            b"h\t0\t",
            b"h\t4294967295\ti",
            b"\t1\ti",
        ];
        let text = pairs(rt.alloc(), &job, records.as_slice(), &mut m)?;
        assert_eq!(rt;
            text.as_slice(),
            b"g\x00\x00\x01\x02\x00\x00\x00\x03a\tb;h\x00\x00\x00\x00\x00\x00\x00\x00;h\xff\xff\xff\xff\x00\x00\x00\x01i;".as_slice()
        );
        assert_eq!(rt; job.setting(), 2);
        assert_eq!(rt; m.counts().maps, 3);
        swaps(&job);
    }
    Ok(())
}

#[test]
fn a_record_of_65535_bytes_is_accepted(rt: HostRuntime) -> Result<(), Fail> {
    if let Some(job) = TopK::<CountMeter>::new(1) {
        let mut long = [b'7'; 65536];
        long[1] = b'\t';
        long[3] = b'\t';
        assert!(rt; !job.accepts(&long));
        assert!(rt; job.accepts(&long[..65535]));
    }
    Ok(())
}

#[test]
fn top_k_keeps_repeated_pairs(rt: HostRuntime) -> Result<(), Fail> {
    let alloc = rt.alloc();
    let mut m = CountMeter::new();
    if let Some(job) = TopK::new(3) {
        let key = Key::of(alloc, b"g")?;
        let x = member(alloc, 7, b"x")?;
        let two = join(alloc, &job, &x, &x, &mut m)?;
        let three = join(alloc, &job, &two, &member(alloc, 9, b"z")?, &mut m)?;
        let four = join(alloc, &job, &three, &member(alloc, 7, b"a")?, &mut m)?;
        let mut text = Vec::new(alloc);
        job.line(alloc, &key, &three, &mut text)?;
        job.line(alloc, &key, &four, &mut text)?;
        assert_eq!(rt;
            text.as_slice(),
            b"g\t9\tz\ng\t7\tx\ng\t7\tx\ng\t9\tz\ng\t7\ta\ng\t7\tx\n".as_slice()
        );
        assert_eq!(rt;
            m.counts(),
            Counts {
                maps: 0,
                merges: 0,
                joins: 3
            }
        );
    }
    Ok(())
}

#[test]
fn members_are_ranked(rt: HostRuntime) -> Result<(), Fail> {
    let alloc = rt.alloc();
    let mut m = CountMeter::new();
    if let (Some(one), Some(four)) = (TopK::new(1), TopK::new(4)) {
        let ab = member(alloc, 9, b"ab")?;
        let a = member(alloc, 9, b"a")?;
        let ten = member(alloc, 10, b"z")?;
        let capital = member(alloc, 9, b"B")?;
        let two = join(alloc, &four, &ab, &ten, &mut m)?;
        assert_eq!(rt; shown(alloc, &two)?.as_str(), "10[122] 9[97, 98] ");
        let other = join(alloc, &four, &capital, &a, &mut m)?;
        assert_eq!(rt; shown(alloc, &other)?.as_str(), "9[66] 9[97] ");
        let all = join(alloc, &four, &other, &two, &mut m)?;
        assert_eq!(rt;
            shown(alloc, &all)?.as_str(),
            "10[122] 9[66] 9[97] 9[97, 98] "
        );
        let again = join(alloc, &four, &all, &ten, &mut m)?;
        assert_eq!(rt;
            shown(alloc, &again)?.as_str(),
            "10[122] 10[122] 9[66] 9[97] "
        );
        let best = join(alloc, &one, &a, &ten, &mut m)?;
        assert_eq!(rt; shown(alloc, &best)?.as_str(), "10[122] ");
    }
    Ok(())
}

#[test]
fn equal_members_are_the_same(rt: HostRuntime) -> Result<(), Fail> {
    let alloc = rt.alloc();
    let mut m = CountMeter::new();
    if let Some(job) = TopK::new(5) {
        let a = member(alloc, 9, b"a")?;
        let b = member(alloc, 9, b"b")?;
        let eight = member(alloc, 8, b"a")?;
        let both = join(alloc, &job, &a, &b, &mut m)?;
        let copied = TopK::<CountMeter>::copy(alloc, &both)?;
        assert!(rt; TopK::<CountMeter>::same(&both, &copied));
        assert!(rt; !TopK::<CountMeter>::same(&a, &b));
        assert!(rt; !TopK::<CountMeter>::same(&a, &eight));
        assert!(rt; !TopK::<CountMeter>::same(&a, &both));
        assert!(rt; !TopK::<CountMeter>::same(&both, &a));
    }
    Ok(())
}
