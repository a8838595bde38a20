//! Turns at a sum that keeps its entries.
ghost use Rattle.std.specs.Prelude.{◌≡◌, ◌≤◌, ◌<◌, ◌^◌, ◌++◌, [], length, vec_capacity, IfOk, All};

use crate::{Pass, TurnLock, Turned, Turns};
use std::alloc::{AllocError, Global};
use std::sync::Wait;
use std::test::Fail;
use std::thread;

/// What a turn added and returned, and under which number; no number if there was no room to note it.
#[derive(Drop)]
struct Addition {
    who: Option<u64>,
    by: u64,
    sum: u64,
}

/// A sum, its noted additions, and how many came when there was no more room.
#[derive(Drop)]
struct Sum {
    total: u64,
    noted: Vec<Addition>,
    lost: u64,
}

impl Sum {
    fn new(alloc: Global, room: usize) -> Result<Sum, AllocError>
        ensures { IfOk result (λ s. (s.noted.items ≡ []) × (s.lost ≡ 0)) }
    {
        Ok(Sum {
            total: 0,
            noted: Vec::with_capacity(alloc, room)?,
            lost: 0,
        })
    }
}

impl Turns for Sum {
    ghost use Rattle.std.specs.Prelude.{◌≡◌, ◌++◌, Some, None, IfSome, replicate};

    type Op = u64;

    type Reply = u64;

    type Entry = Addition;

    ghost history = { λ s. s.noted.items ++ replicate s.lost (record { who = None; by = 0; sum = 0 }) };

    ghost whose = { λ e. e.who };

    ghost answers = { λ e by sum. IfSome e.who (λ _. (e.by ≡ by) × (e.sum ≡ sum)) };

    ghost may = { λ _ _. Unit {0} };

    ghost legal = { λ _. Unit {0} };

    fn play(&mut self, who: u64, by: u64) -> u64 {
        let sum = self.total.wrapping_add(by);
        self.total = sum;
        if self.lost == 0 && self.noted.len() < self.noted.capacity() {
            self.noted.push_reserved(Addition {
                who: Some(who),
                by,
                sum,
            });
        } else {
            self.lost += 1;
        }
        sum
    }
}

/// A turn by the pass at this place.
fn turn_at<R: Wait>(
    rt: &R,
    lock: &TurnLock<Sum>,
    passes: &mut [Pass<Sum>],
    place: usize,
    by: u64,
) -> Result<u64, Turned<u64>>
    requires place { place < length passes.old }
    requires of { All (λ p. p.lock ≡ lock.now.id) passes.old }
    ensures { All (λ p. p.lock ≡ lock.now.id) passes.new }
{
    lock.turn(rt, &mut passes[place], by)
}

#[test]
fn turns_answer_in_one_history(rt: HostRuntime) -> Result<(), Fail> {
    let (lock, mut passes) = TurnLock::new(rt.alloc(), Sum::new(rt.alloc(), 8)?, 2)?;
    let both = passes.as_mut_slice();
    assert!(rt; both.len() == 2);
    assert!(rt; matches!(turn_at(&rt, &lock, both, 0, 5), Ok(5)));
    assert!(rt; matches!(turn_at(&rt, &lock, both, 1, 6), Ok(11)));
    let sum = lock.close(passes);
    assert_eq!(rt; sum.total, 11);
    assert_eq!(rt; sum.noted.len(), 2);
    Ok(())
}

#[test]
fn a_worn_lock_refuses(rt: HostRuntime) -> Result<(), Fail> {
    let last = (1 << 62) - 1;
    let (lock, mut passes) = TurnLock::starting_at(rt.alloc(), last, Sum::new(rt.alloc(), 8)?, 1)?;
    let only = passes.as_mut_slice();
    assert!(rt; only.len() == 1);
    assert!(rt; matches!(turn_at(&rt, &lock, only, 0, 5), Ok(5)));
    let Err(Turned::Worn { ticket, op }) = turn_at(&rt, &lock, only, 0, 6) else {
        panic!(rt; "the lock is worn")
    };
    assert_eq!(rt; (ticket, op), (1 << 62, 6));
    assert!(rt; turn_at(&rt, &lock, only, 0, 7).is_err());
    let sum = lock.close(passes);
    assert_eq!(rt; sum.total, 5);
    Ok(())
}

/// Takes `turns` turns, each of which adds one.
fn adds<R: Wait>(rt: &R, lock: &TurnLock<Sum>, pass: &mut Pass<Sum>, turns: u64)
    requires { pass.old.lock ≡ lock.now.id }
    ensures { pass.new.lock ≡ lock.now.id }
{
    for _ in 0..turns {
        let _ = lock.turn(rt, pass, 1);
    }
}

#[test]
fn threads_share_one_history(rt: HostRuntime) -> Result<(), Fail> {
    let (threads, turns) = (4, 500);
    let sum = Sum::new(rt.alloc(), threads * turns)?;
    let (lock, mut passes) = TurnLock::new(rt.alloc(), sum, threads as u32)?;
    thread::for_each_mut(
        &rt,
        passes.as_mut_slice(),
        threads,
        &|_, pass: &mut Pass<Sum>|
            requires { pass.now.lock ≡ lock.id }
            ensures { pass.exit.now.lock ≡ lock.id }
        { adds(&rt, &lock, pass, turns as u64) },
    );
    let sum = lock.close(passes);
    assert_eq!(rt; (sum.noted.len(), sum.lost), (threads * turns, 0));
    let mut total = 0u64;
    for addition in &sum.noted {
        total = total.wrapping_add(addition.by);
        assert_eq!(rt; addition.sum, total);
    }
    for who in 0..threads as u64 {
        let own = sum.noted.iter().filter(|a| a.who == Some(who)).count();
        assert_eq!(rt; own, turns);
    }
    Ok(())
}
