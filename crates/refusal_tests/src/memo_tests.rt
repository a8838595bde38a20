//! A memo whose lock is worn, and calls that are made again if they were out of memory.
ghost use Rattle.std.specs.Prelude.{◌≡◌, ◌<◌, ◌*◌, All, length, replicate};

use memo_core::{Event, KeepAnswer, LookAnswer, replay};
use memo_server::Recipe;
use pin_table::{Caller, Memo, MemoFault};
use std::alloc::{AllocError, Global};
use std::test::Fail;

// Twice a number, under one digest.
#[derive(Drop)]
struct Twice;

impl Recipe for Twice {
    type In = u64;

    type Out = u64;

    ghost fits = { λ input out. out ≡ 2 * input };

    ghost digest_of = { λ _. replicate 32 7 };

    fn digest(_input: &u64) -> [u8; 32] {
        [7; 32]
    }

    fn same(a: &u64, b: &u64) -> bool {
        *a == *b
    }

    fn share_in(_alloc: Global, input: &u64) -> Result<u64, AllocError> {
        Ok(*input)
    }

    fn share_out(_alloc: Global, out: &u64) -> Result<u64, AllocError> {
        Ok(*out)
    }
}

// The last caller.
fn last_of<R: Recipe>(memo: &Memo<R>, mut callers: Vec<Caller<R>>) -> Caller<R>
    requires some { 0 < length callers.items }
    requires of { All (λ c. c.locks ≡ memo.now.locks) callers.items }
    ensures { result.locks ≡ memo.now.locks }
{
    match callers.pop() {
        Some(caller) => caller,
        None => unreachable!(),
    }
}

#[test]
fn a_worn_lock_refuses_a_keep(rt: HostRuntime) -> Result<(), Fail> {
    let (memo, callers) = Memo::<Twice>::starting_at(rt.alloc(), 1 << 62, 1, 1)?;
    let mut caller = last_of(&memo, callers);
    let Err(refused) = memo.keep(&rt, &mut caller, 1, 21, 42) else {
        panic!(rt; "the lock is worn")
    };
    assert!(rt; matches!(refused.fault, MemoFault::Worn { ticket } if ticket == 1 << 62));
    assert_eq!(rt; (refused.input, refused.out), (21, 42));
    Ok(())
}

#[test]
fn out_of_memory_a_memo_is_closed_again(rt: HostRuntime) -> Result<(), Fail> {
    let (memo, callers) = Memo::<Twice>::new(rt.alloc(), 3, 2)?;
    let shards = match memo.close(callers) {
        Ok(shards) => shards,
        Err((_, memo, callers)) => {
            assert_eq!(rt; (memo.shards(), memo.callers(), callers.len()), (3, 2, 2));
            let Ok(shards) = memo.close(callers) else {
                panic!(rt; "one call alone was refused")
            };
            shards
        }
    };
    assert_eq!(rt; shards.len(), 3);
    Ok(())
}

#[test]
fn out_of_memory_a_history_is_replayed_again(rt: HostRuntime) -> Result<(), Fail> {
    let history = [
        Event::Look {
            caller: 0,
            run: 1,
            digest: [7; 32],
            answer: LookAnswer::Absent,
        },
        Event::Keep {
            caller: 0,
            run: 1,
            digest: [7; 32],
            answer: KeepAnswer::Stored(0),
        },
        Event::Look {
            caller: 1,
            run: 2,
            digest: [7; 32],
            answer: LookAnswer::Hit(0),
        },
    ];
    let end = match replay(rt.alloc(), &history) {
        Ok(end) => end,
        Err(_) => replay(rt.alloc(), &history)?,
    };
    let state = end.ok_or("the history is legal")?;
    assert_eq!(rt; (state.next, state.entries.len()), (1, 1));
    assert_eq!(rt; state.entries.get(0).pins.len(), 2);
    Ok(())
}
