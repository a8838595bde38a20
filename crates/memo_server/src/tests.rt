//! One shard on one thread: each call's answer, the replayed history, and unequal inputs with equal digests.
ghost use Rattle.std.specs.Prelude.{◌≡◌, ◌*◌, ◌%◌, replicate};

use super::*;
use memo_core::replay;
use std::alloc::{AllocError, Global};
use std::test::Fail;
use turn_lock::Turns;

// Twice a number. Numbers below 16 have different digests; 1 and 17 have the same.
#[derive(Drop)]
struct Twice;

impl Recipe for Twice {
    type In = u8;

    type Out = u8;

    ghost fits = { λ input out. out ≡ 2 * input };

    ghost digest_of = { λ input. replicate 32 (input % 16) };

    fn digest(input: &u8) -> [u8; 32] {
        [*input % 16; 32]
    }

    fn same(a: &u8, b: &u8) -> bool {
        *a == *b
    }

    fn share_in(_alloc: Global, input: &u8) -> Result<u8, AllocError> {
        Ok(*input)
    }

    fn share_out(_alloc: Global, out: &u8) -> Result<u8, AllocError> {
        Ok(*out)
    }
}

// The id of the entry that is stored for an input, with twice that as its result.
fn stored_id(shard: &mut Shard<Twice>, caller: u64, run: u64, input: u8) -> Option<u64> {
    if shard.next() == u64::MAX || input > 100 {
        return None;
    }
    let answer = shard.keep(caller, run, input, 2 * input);
    match &answer {
        Ok(ShardKeep::Stored(entry)) => Some(entry.id()),
        _ => None,
    }
}

// The id of the entry that a keep finds.
fn found_id(shard: &mut Shard<Twice>, caller: u64, run: u64, input: u8) -> Option<u64> {
    if shard.next() == u64::MAX || input > 100 {
        return None;
    }
    let answer = shard.keep(caller, run, input, 2 * input);
    match &answer {
        Ok(ShardKeep::Found(entry)) => Some(entry.id()),
        _ => None,
    }
}

// The id of the entry that a look hits, taken from a share of it.
fn hit_id(
    shard: &mut Shard<Twice>,
    caller: u64,
    run: u64,
    input: u8,
) -> Result<Option<u64>, AllocError> {
    let answer = shard.look(caller, run, input)?;
    match &answer {
        ShardLook::Hit(entry) => {
            let share = entry.share()?;
            Ok(Some(share.id()))
        }
        _ => Ok(None),
    }
}

fn is_absent(shard: &mut Shard<Twice>, run: u64, input: u8) -> Result<bool, AllocError> {
    let answer = shard.look(0, run, input)?;
    Ok(matches!(&answer, ShardLook::Absent))
}

// Releases a pin of the caller, and returns whether it had one.
fn gives_up(shard: &mut Shard<Twice>, caller: u64, id: u64) -> bool {
    if !shard.has_pin(caller, id) {
        return false;
    }
    shard.release(caller, id);
    true
}

#[test]
fn equal_digests_of_unequal_inputs_clash(rt: HostRuntime) -> Result<(), Fail> {
    let mut shard = Shard::<Twice>::new(rt.alloc());
    assert!(rt; stored_id(&mut shard, 0, 1, 1) == Some(0));
    let looked = shard.look(0, 1, 17)?;
    assert!(rt; matches!(&looked, ShardLook::Clash(entry) if *entry.input() == 1));
    assert!(rt; shard.next() == 1);
    let kept = shard.keep(0, 1, 17, 34);
    assert!(rt; matches!(&kept, Ok(ShardKeep::Clash(_, 17, 34))));
    Ok(())
}

#[test]
fn a_pinned_entry_outlives_a_sweep(rt: HostRuntime) -> Result<(), Fail> {
    let mut shard = Shard::<Twice>::new(rt.alloc());
    assert!(rt; is_absent(&mut shard, 1, 1)?);
    assert!(rt; stored_id(&mut shard, 0, 1, 1) == Some(0));
    assert!(rt; hit_id(&mut shard, 1, 2, 1)? == Some(0));
    assert!(rt; gives_up(&mut shard, 0, 0));
    assert!(rt; shard.sweep(1, 9)? == 0);
    assert!(rt; gives_up(&mut shard, 1, 0));
    assert!(rt; shard.sweep(1, 2)? == 0);
    assert!(rt; shard.sweep(1, 3)? == 1);
    assert!(rt; is_absent(&mut shard, 3, 1)?);
    let history = shard.history();
    assert!(rt; history.len() == 9);
    let end = replay(rt.alloc(), history)?;
    assert!(rt; matches!(&end, Some(state) if state.entries.is_empty() && state.next == 1));
    assert!(rt; replay(rt.alloc(), &history[2..3])?.is_none());
    Ok(())
}

#[test]
fn a_kept_entry_is_found_again(rt: HostRuntime) -> Result<(), Fail> {
    let mut shard = Shard::<Twice>::new(rt.alloc());
    assert!(rt; stored_id(&mut shard, 7, 3, 5) == Some(0));
    assert!(rt; found_id(&mut shard, 8, 2, 5) == Some(0));
    assert!(rt; stored_id(&mut shard, 7, 3, 6) == Some(1));
    assert!(rt; gives_up(&mut shard, 8, 0) && !gives_up(&mut shard, 8, 0));
    assert!(rt; shard.sweep(7, 9)? == 0);
    let end = replay(rt.alloc(), shard.history())?;
    assert!(rt;
        matches!(&end, Some(state) if state.entries.len() == 2 && state.entries.get(0).used == 3)
    );
    Ok(())
}

#[test]
fn a_turn_makes_one_call(rt: HostRuntime) -> Result<(), Fail> {
    let mut shard = Shard::<Twice>::new(rt.alloc());
    let op = ShardOp::Look { run: 1, input: 5 };
    let reply = shard.play(3, op);
    assert!(rt; matches!(&reply, ShardReply::Look(Ok(ShardLook::Absent))));
    assert!(rt; shard.history().len() == 1);
    Ok(())
}
