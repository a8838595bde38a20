//! A collector together with one caller: horizons, and sweeps that spare what is held.
ghost use Rattle.std.specs.Prelude.{◌≡◌, ◌+◌, ◌<◌, replicate, vec_len, All};

use super::*;
use memo_core::Event;
use memo_server::Recipe;
use pin_table::{Caller, Memo, MemoFault};
use std::alloc::{AllocError, Global};
use std::test::Fail;

// A truth value for itself: a sweep does not use the recipe.
#[derive(Drop)]
struct Itself;

impl Recipe for Itself {
    type In = bool;

    type Out = bool;

    ghost fits = { λ input out. out ≡ input };

    ghost digest_of = { λ _. replicate 32 0 };

    fn digest(_input: &bool) -> [u8; 32] {
        [0; 32]
    }

    fn same(a: &bool, b: &bool) -> bool {
        *a == *b
    }

    fn share_in(_alloc: Global, input: &bool) -> Result<bool, AllocError> {
        Ok(*input)
    }

    fn share_out(_alloc: Global, out: &bool) -> Result<bool, AllocError> {
        Ok(*out)
    }
}

// The last caller of a memo.
fn last_caller<R: Recipe>(memo: &Memo<R>, callers: &mut Vec<Caller<R>>) -> Caller<R>
    requires some { 0 < vec_len callers.old }
    requires of { All (λ c. c.locks ≡ memo.now.locks) callers.old.items }
    ensures count { vec_len callers.new + 1 ≡ vec_len callers.old }
    ensures rest { All (λ c. c.locks ≡ memo.now.locks) callers.new.items }
    ensures of { result.locks ≡ memo.now.locks }
{
    match callers.pop() {
        Some(caller) => caller,
        None => unreachable!(),
    }
}

#[test]
fn each_sweep_is_at_the_horizon(rt: HostRuntime) -> Result<(), Fail> {
    let (memo, mut callers) = Memo::<Itself>::new(rt.alloc(), 2, 1)?;
    let mut collector = Collector::new(last_caller(&memo, &mut callers), 3);
    // Runs, and their horizons with three runs kept.
    for (run, horizon) in [(0, 0), (2, 0), (3, 0), (4, 1), (u64::MAX, u64::MAX - 3)] {
        assert_eq!(rt; collector.horizon(run), horizon, "run {run}");
    }
    assert!(rt; matches!(collector.sweep_shard(&rt, &memo, 9, 1), Ok(0)));
    assert!(rt; matches!(collector.sweep_shard(&rt, &memo, 2, 0), Ok(0)));
    callers.push(collector.into_caller())?;
    let Ok(shards) = memo.close(callers) else {
        panic!(rt; "memory was there")
    };
    assert!(rt; shards.len() == 2);
    for (place, want) in [(0, 0), (1, 6)] {
        let history = shards[place].history();
        assert!(rt; history.len() == 1);
        assert!(rt; matches!(&history[0], Event::Sweep { horizon, .. } if *horizon == want));
    }
    Ok(())
}

#[test]
fn a_worn_lock_refuses(rt: HostRuntime) -> Result<(), Fail> {
    let (memo, mut callers) = Memo::<Itself>::starting_at(rt.alloc(), 1 << 62, 1, 1)?;
    let mut collector = Collector::new(last_caller(&memo, &mut callers), 0);
    let swept = collector.sweep_shard(&rt, &memo, 1, 0);
    assert!(rt; matches!(&swept, Err(MemoFault::Worn { ticket }) if *ticket == 1 << 62));
    Ok(())
}
