//! Lanes of a small job, through the bound, over memos of two callers, of which the second sweeps.
ghost use Rattle.std.specs.Prelude.{◌≡◌, ◌^◌, ◌≤◌, ◌∷◌, [], true, refl, All, IfOk};
ghost use Rattle.map_tasks.specs.Texts.{IsMappedSo};

use super::*;
use job_laws::{CountMeter, Emit, Job, Key, Meter};
use memo_core::replay;
use pin_table::{Caller, Memo, MemoFault};
use record_text::{Bundle, Records, is_record};
use std::alloc::{AllocError, Global};
use std::marker::PhantomData;
use std::sync::Wait;
use std::test::Fail;
use std::thread::join_mut;

// One mark for each record, all under one key, of which the last is kept.
#[derive(Drop)]
struct Marks<M: Meter> {
    meter: PhantomData<M>,
}

impl<M: Meter> Job for Marks<M> {
    type Val = u8;

    type Meter = M;

    ghost setting = { λ _. 3 };

    ghost accepts = { λ _ r. true };

    ghost emits = { λ _ r. (107 ∷ [], 9) ∷ [] };

    ghost joined = { λ _ a b. b };

    ghost good = { λ _ n. Unit {0} };

    ghost text = { λ _ k n. k };

    ghost encoded = { λ n. n ∷ [] };

    fn setting(&self) -> u32 {
        3
    }

    fn accepts(&self, _r: &[u8]) -> bool {
        true
    }

    fn map(
        &self,
        _alloc: Global,
        _r: &[u8],
        out: &mut Emit<u8>,
        m: &mut M,
    ) -> Result<(), AllocError> {
        m.map();
        out.put(b"k".as_slice(), 9)
    }

    fn combine(&self, _alloc: Global, _a: &u8, b: &u8, m: &mut M) -> Result<u8, AllocError> {
        m.join();
        Ok(*b)
    }

    fn line(&self, _alloc: Global, k: &Key, _v: &u8, out: &mut Vec<u8>) -> Result<(), AllocError> {
        out.extend_from_slice(k.bytes())
    }

    fn copy(_alloc: Global, v: &u8) -> Result<u8, AllocError> {
        Ok(*v)
    }

    fn same(a: &u8, b: &u8) -> bool {
        *a == *b
    }

    fn encode(v: &u8, out: &mut Vec<u8>) -> Result<(), AllocError> {
        out.extend_from_slice(&[*v])
    }

    ghost emits_good = { λ s r h. (tt, tt) };

    ghost join_laws = { λ s. record { keeps = λ a b g h. tt; assoc = λ a b c g h i. refl } };
}

// A bundle of one record.
fn bundle_of(alloc: Global, bytes: &[u8]) -> Result<Bundle, AllocError> {
    let mut records = Records::new(alloc);
    if is_record(bytes) {
        records.push(bytes)?;
    }
    Bundle::of(alloc, records)
}

// A memo of leaves whose locks start at `start`, with a lane for its first caller, and its second caller.
fn memo_with_lane<J: Job>(
    alloc: Global,
    start: u64,
) -> Result<(Memo<MapRecipe<J>>, Lane<J>, Caller<MapRecipe<J>>), AllocError>
    requires { start ≤ 2 ^ 62 }
    ensures memo { IfOk result (λ r. r.0.callers ≡ 2) }
    ensures lane { IfOk result (λ r. (r.1.caller.locks ≡ r.0.locks) × (r.1.texts ≡ [])) }
    ensures other { IfOk result (λ r. r.2.locks ≡ r.0.locks) }
{
    let (memo, mut callers) = Memo::<MapRecipe<J>>::starting_at(alloc, start, 2, 2)?;
    let other = match callers.pop() {
        Some(other) => other,
        None => unreachable!(),
    };
    let caller = match callers.pop() {
        Some(caller) => caller,
        None => unreachable!(),
    };
    Ok((memo, Lane::new(alloc, caller), other))
}

// Brings a leaf of a bundle in two parts.
fn bring<W: Wait>(
    rt: &W,
    memo: &Memo<MapRecipe<Marks<CountMeter>>>,
    lane: &mut Lane<Marks<CountMeter>>,
    bundle: &Bundle,
    m: &mut CountMeter,
) -> Result<Leaf<Marks<CountMeter>>, AllocError>
    requires of { lane.old.caller.locks ≡ memo.now.locks }
    requires mapped { All (IsMappedSo 2 3) lane.old.texts }
    ensures of { lane.new.caller.locks ≡ memo.now.locks }
    ensures mapped { All (IsMappedSo 2 3) lane.new.texts }
    ensures parts { IfOk result (λ l. l.parts ≡ 2) }
{
    let job = Marks::<CountMeter> { meter: PhantomData };
    match lane.bring(rt, memo, &job, 1, 2, bundle, m) {
        Ok(leaf) => return Ok(leaf),
        Err(e) => return Err(e),
    }
}

// Brings a leaf of a bundle in two parts by its input, and returns how many entries the lane's sheets of it have.
fn bring_entries<W: Wait>(
    rt: &W,
    memo: &Memo<MapRecipe<Marks<CountMeter>>>,
    lane: &mut Lane<Marks<CountMeter>>,
    bundle: &Bundle,
    m: &mut CountMeter,
) -> Result<usize, AllocError>
    requires of { lane.old.caller.locks ≡ memo.now.locks }
    requires mapped { All (IsMappedSo 2 3) lane.old.texts }
    ensures of { lane.new.caller.locks ≡ memo.now.locks }
    ensures mapped { All (IsMappedSo 2 3) lane.new.texts }
{
    let job = Marks::<CountMeter> { meter: PhantomData };
    let input = LeafInput::new(bundle.share()?, 2, 3);
    match lane.bring_input(rt, memo, &job, 1, &input, m) {
        Ok(_) => (),
        Err(e) => return Err(e),
    }
    let first = lane.sheet_of(&input, 0)?;
    let second = lane.sheet_of(&input, 1)?;
    Ok(first.entries().len().saturating_add(second.entries().len()))
}

// Lets a leaf of a bundle leave, if there is one.
fn leave(
    memo: &Memo<MapRecipe<Marks<CountMeter>>>,
    lane: &mut Lane<Marks<CountMeter>>,
    bundle: &Bundle,
) -> bool
    requires of { lane.old.caller.locks ≡ memo.now.locks }
    requires mapped { All (IsMappedSo 2 3) lane.old.texts }
    ensures of { lane.new.caller.locks ≡ memo.now.locks }
    ensures mapped { All (IsMappedSo 2 3) lane.new.texts }
{
    if lane.left(bundle) == 0 {
        return false;
    }
    lane.leave(bundle);
    true
}

fn settle<W: Wait>(
    rt: &W,
    memo: &Memo<MapRecipe<Marks<CountMeter>>>,
    lane: &mut Lane<Marks<CountMeter>>,
)
    requires of { lane.old.caller.locks ≡ memo.now.locks }
    requires mapped { All (IsMappedSo 2 3) lane.old.texts }
    ensures of { lane.new.caller.locks ≡ memo.now.locks }
    ensures mapped { All (IsMappedSo 2 3) lane.new.texts }
{
    lane.settle(rt, memo);
}

fn revert<W: Wait>(
    rt: &W,
    memo: &Memo<MapRecipe<Marks<CountMeter>>>,
    lane: &mut Lane<Marks<CountMeter>>,
)
    requires of { lane.old.caller.locks ≡ memo.now.locks }
    requires mapped { All (IsMappedSo 2 3) lane.old.texts }
    ensures of { lane.new.caller.locks ≡ memo.now.locks }
    ensures mapped { All (IsMappedSo 2 3) lane.new.texts }
{
    lane.revert(rt, memo);
}

// How many entries both shards drop that nobody holds and that no run from the second on used.
fn sweep<J: Job, W: Wait>(
    rt: &W,
    memo: &Memo<MapRecipe<J>>,
    caller: &mut Caller<MapRecipe<J>>,
) -> u64
    requires { caller.old.locks ≡ memo.now.locks }
    ensures { caller.new.locks ≡ memo.now.locks }
{
    let mut dropped = 0u64;
    'shards: for shard in 0..memo.shards() {
        match memo.sweep(rt, caller, shard, 2) {
            Ok(more) => dropped = dropped.saturating_add(more),
            Err(MemoFault::Worn { ticket: _ }) => {}
            Err(MemoFault::Mem) => {}
        }
    }
    dropped
}

// How many entries the two sheets of a leaf have.
fn entries<J: Job>(leaf: &Leaf<J>) -> usize
    requires { leaf.now.parts ≡ 2 }
{
    leaf.sheet(0)
        .entries()
        .len()
        .saturating_add(leaf.sheet(1).entries().len())
}

#[test]
fn equal_digests_meet_in_one_lane(rt: HostRuntime) -> Result<(), Fail> {
    let mut digest = [9; 32];
    digest[0] = 227;
    assert_eq!(rt; lane_of(&digest, 16), 3);
    assert_eq!(rt; lane_of(&digest, 1), 0);
    Ok(())
}

#[test]
fn the_digest_is_of_a_zero_byte_and_the_text(rt: HostRuntime) -> Result<(), Fail> {
    let input = LeafInput::new(bundle_of(rt.alloc(), b"a".as_slice())?, 2, 3);
    // SHA-256 of 00 61 0a.
    let digest = [
        182u8, 165, 103, 180, 102, 86, 42, 106, 149, 74, 246, 21, 123, 137, 143, 158, 136, 14, 67,
        82, 48, 74, 220, 41, 105, 21, 95, 14, 77, 227, 28, 240,
    ];
    assert!(rt; input.digest() == digest);
    assert!(rt; input.same(&input.share()?));
    Ok(())
}

#[test]
fn a_text_is_mapped_once(rt: HostRuntime) -> Result<(), Fail> {
    let (memo, mut lane, _other) = memo_with_lane::<Marks<CountMeter>>(rt.alloc(), 0)?;
    let bundle = bundle_of(rt.alloc(), b"one".as_slice())?;
    let same = bundle_of(rt.alloc(), b"one".as_slice())?;
    let mut m = CountMeter::new();
    let first = bring(&rt, &memo, &mut lane, &bundle, &mut m)?;
    assert_eq!(rt; entries(&first), 1);
    assert_eq!(rt; bring_entries(&rt, &memo, &mut lane, &same, &mut m)?, 1);
    assert_eq!(rt; m.counts().maps, 1);
    settle(&rt, &memo, &mut lane);
    assert_eq!(rt; lane.len(), 1);
    assert_eq!(rt; lane.left(&bundle), 2);
    Ok(())
}

#[test]
fn a_text_that_leaves_and_comes_back_costs_nothing(rt: HostRuntime) -> Result<(), Fail> {
    let (memo, mut lane, _other) = memo_with_lane::<Marks<CountMeter>>(rt.alloc(), 0)?;
    let bundle = bundle_of(rt.alloc(), b"one".as_slice())?;
    let mut m = CountMeter::new();
    let _first = bring(&rt, &memo, &mut lane, &bundle, &mut m)?;
    assert!(rt; !leave(&memo, &mut lane, &bundle));
    settle(&rt, &memo, &mut lane);
    assert!(rt; leave(&memo, &mut lane, &bundle));
    let _back = bring(&rt, &memo, &mut lane, &bundle, &mut m)?;
    settle(&rt, &memo, &mut lane);
    assert_eq!(rt; lane.left(&bundle), 1);
    // It leaves the lane, and is still in the memo.
    assert!(rt; leave(&memo, &mut lane, &bundle));
    settle(&rt, &memo, &mut lane);
    assert!(rt; lane.is_empty());
    let _again = bring(&rt, &memo, &mut lane, &bundle, &mut m)?;
    assert_eq!(rt; m.counts().maps, 1);
    Ok(())
}

#[test]
fn what_no_leaf_uses_is_swept(rt: HostRuntime) -> Result<(), Fail> {
    let (memo, mut lane, mut other) = memo_with_lane::<Marks<CountMeter>>(rt.alloc(), 0)?;
    let kept = bundle_of(rt.alloc(), b"kept".as_slice())?;
    let gone = bundle_of(rt.alloc(), b"gone".as_slice())?;
    let mut m = CountMeter::new();
    let _kept = bring(&rt, &memo, &mut lane, &kept, &mut m)?;
    settle(&rt, &memo, &mut lane);
    let _gone = bring(&rt, &memo, &mut lane, &gone, &mut m)?;
    assert_eq!(rt; sweep(&rt, &memo, &mut other), 0);
    revert(&rt, &memo, &mut lane);
    assert_eq!(rt; lane.len(), 1);
    assert_eq!(rt; sweep(&rt, &memo, &mut other), 1);
    Ok(())
}

#[test]
fn a_worn_lock_gives_leaves_without_pins(rt: HostRuntime) -> Result<(), Fail> {
    let (memo, mut lane, _other) = memo_with_lane::<Marks<CountMeter>>(rt.alloc(), 1 << 62)?;
    let bundle = bundle_of(rt.alloc(), b"one".as_slice())?;
    let mut m = CountMeter::new();
    let leaf = bring(&rt, &memo, &mut lane, &bundle, &mut m)?;
    assert_eq!(rt; entries(&leaf), 1);
    settle(&rt, &memo, &mut lane);
    let _again = bring(&rt, &memo, &mut lane, &bundle, &mut m)?;
    assert_eq!(rt; m.counts().maps, 1);
    Ok(())
}

#[test]
fn out_of_memory_a_lane_is_as_before(rt: HostRuntime) -> Result<(), Fail> {
    let (memo, mut lane, _other) = memo_with_lane::<Marks<CountMeter>>(rt.alloc(), 0)?;
    let kept = bundle_of(rt.alloc(), b"kept".as_slice())?;
    let bundle = bundle_of(rt.alloc(), b"one".as_slice())?;
    let mut m = CountMeter::new();
    let _kept = bring(&rt, &memo, &mut lane, &kept, &mut m)?;
    settle(&rt, &memo, &mut lane);
    if bring(&rt, &memo, &mut lane, &bundle, &mut m).is_err() {
        assert_eq!(rt; lane.len(), 1);
        revert(&rt, &memo, &mut lane);
        let _second = bring(&rt, &memo, &mut lane, &bundle, &mut m)?;
    }
    settle(&rt, &memo, &mut lane);
    assert_eq!(rt; lane.len(), 2);
    assert_eq!(rt; lane.left(&kept), 1);
    Ok(())
}

// Brings a leaf of a bundle, settles, and lets it leave; returns how many entries its sheets have.
fn come_and_go<W: Wait>(
    rt: &W,
    memo: &Memo<MapRecipe<Marks<CountMeter>>>,
    lane: &mut Lane<Marks<CountMeter>>,
    bundle: &Bundle,
) -> usize
    requires of { lane.old.caller.locks ≡ memo.now.locks }
    requires mapped { All (IsMappedSo 2 3) lane.old.texts }
    ensures of { lane.new.caller.locks ≡ memo.now.locks }
    ensures mapped { All (IsMappedSo 2 3) lane.new.texts }
{
    let mut m = CountMeter::new();
    let come = bring_entries(rt, memo, lane, bundle, &mut m).unwrap_or(0);
    settle(rt, memo, lane);
    leave(memo, lane, bundle);
    settle(rt, memo, lane);
    come
}

// The same over and over.
fn comes_and_goes<W: Wait>(
    rt: &W,
    memo: &Memo<MapRecipe<Marks<CountMeter>>>,
    lane: &mut Lane<Marks<CountMeter>>,
    bundle: &Bundle,
    rounds: usize,
) -> usize
    requires of { lane.old.caller.locks ≡ memo.now.locks }
    requires mapped { All (IsMappedSo 2 3) lane.old.texts }
    ensures of { lane.new.caller.locks ≡ memo.now.locks }
    ensures mapped { All (IsMappedSo 2 3) lane.new.texts }
{
    let mut all = 0usize;
    'rounds: for _ in 0..rounds {
        all = all.saturating_add(come_and_go(rt, memo, lane, bundle));
    }
    all
}

// Sweeps both shards over and over.
fn sweeps<J: Job, W: Wait>(
    rt: &W,
    memo: &Memo<MapRecipe<J>>,
    caller: &mut Caller<MapRecipe<J>>,
    rounds: usize,
)
    requires { caller.old.locks ≡ memo.now.locks }
    ensures { caller.new.locks ≡ memo.now.locks }
{
    'rounds: for _ in 0..rounds {
        sweep(rt, memo, caller);
    }
}

#[test]
fn a_lane_and_a_collector_work_beside_each_other(rt: HostRuntime) -> Result<(), Fail> {
    let rounds = 300;
    let (memo, mut lane, mut other) = memo_with_lane::<Marks<CountMeter>>(rt.alloc(), 0)?;
    let bundle = bundle_of(rt.alloc(), b"one".as_slice())?;
    let (come, ()) = join_mut(
        &rt,
        &mut || comes_and_goes(&rt, &memo, &mut lane, &bundle, rounds),
        &mut || sweeps(&rt, &memo, &mut other, rounds),
    );
    assert_eq!(rt; come, rounds);
    sweep(&rt, &memo, &mut other);
    let mut callers = Vec::new(rt.alloc());
    callers.push(lane.into_caller())?;
    callers.push(other)?;
    let Ok(shards) = memo.close(callers) else {
        panic!(rt; "memory was there")
    };
    for shard in &shards {
        let end = replay(rt.alloc(), shard.history())?;
        assert!(rt; matches!(&end, Some(state) if state.entries.is_empty()));
    }
    Ok(())
}
