//! How a memo and its callers are made: a lock for each shard, whose passes go to the callers in their order.
ghost use Rattle.std.specs.Prelude.{◌≡◌, ℕ, ◌^◌, ◌<◌, ◌≤◌, ◌++◌, ◌∷◌, [], length, vec_len, vec_capacity, slice_get, Some, IfOk, map, All};
ghost use mathlib.Core.Option.{some};
ghost use lib.ListN.{get_elem?};
ghost use Rattle.atomic_table.specs.Seated.{TableId};
ghost use Rattle.turn_lock.specs.Views.{PassView, unplayed};
ghost use Rattle.memo_server.specs.declared.turn.Turn.{Turn};
ghost use Rattle.pin_table.specs.Views.{CallerView, with_lock};
ghost use Rattle.pin_table.specs.Ends.{AreNewcomers, Starts};

use crate::caller::Caller;
use crate::memo::Memo;
use memo_server::{Recipe, Shard};
use std::alloc::{AllocError, Global};
use turn_lock::{Pass, TurnLock};

impl<R: Recipe> Memo<R> {
    /// A memo without entries whose locks start at 0, and its callers, numbered from 0 in their order. It fails only
    /// out of memory.
    pub fn new(
        alloc: Global,
        shards: u32,
        callers: u32,
    ) -> Result<(Memo<R>, Vec<Caller<R>>), AllocError>
        requires shards { (0 < shards) × (shards ≤ 8) }
        requires callers { (0 < callers) × (callers ≤ 64) }
        ensures { IfOk result (λ r. Starts 0 shards callers r.0 r.1.items) }
    {
        Memo::starting_at(alloc, 0, shards, callers)
    }

    /// A memo without entries whose locks start at `n`, and its callers, numbered from 0 in their order. It fails only
    /// out of memory.
    pub fn starting_at(
        alloc: Global,
        n: u64,
        shards: u32,
        callers: u32,
    ) -> Result<(Memo<R>, Vec<Caller<R>>), AllocError>
        requires start { n ≤ 2 ^ 62 }
        requires shards { (0 < shards) × (shards ≤ 8) }
        requires callers { (0 < callers) × (callers ≤ 64) }
        ensures { IfOk result (λ r. Starts n shards callers r.0 r.1.items) }
    {
        let mut locks = Vec::with_capacity(alloc, shards as usize)?;
        let mut all = without_passes(alloc, callers)?;
        'shards: for _ in 0..shards {
            let lock = lock_for(alloc, n, &mut all)?;
            locks.push_reserved(lock);
        }
        let memo = Memo {
            alloc,
            locks,
            start: n,
            callers,
        };
        Ok((memo, all))
    }
}

// Callers, numbered from 0, that have no pass yet.
fn without_passes<R: Recipe>(alloc: Global, callers: u32) -> Result<Vec<Caller<R>>, AllocError>
    ensures { IfOk result (λ all. (vec_len all ≡ callers) × AreNewcomers [] all.items) }
{
    let mut all = Vec::with_capacity(alloc, callers as usize)?;
    'numbers: for number in 0..callers {
        all.push_reserved(Caller::new(alloc, number as u64));
    }
    Ok(all)
}

// A lock over a new shard. Each caller gets the pass of its number.
fn lock_for<R: Recipe>(
    alloc: Global,
    n: u64,
    all: &mut Vec<Caller<R>>,
) -> Result<TurnLock<Shard<R>>, AllocError>
    requires start { n ≤ 2 ^ 62 }
    requires count { (0 < vec_len all.old) × (vec_len all.old ≤ 64) }
    requires numbers { (i : ℕ) (c : CallerView) → slice_get all.old.items i ≡ Some c → c.number ≡ i }
    ensures lock { IfOk result (λ l. (l.start ≡ n) × (l.callers ≡ vec_len all.old)) }
    ensures callers { IfOk result (λ l. all.new.items ≡ map (with_lock l.id) all.old.items) }
{
    let (lock, passes) = TurnLock::starting_at(alloc, n, Shard::new(alloc), all.len() as u32)?;
    hand_out(passes, all)?;
    Ok(lock)
}

// Gives each caller the pass of its number.
fn hand_out<R: Recipe>(
    mut passes: Vec<Pass<Shard<R>>>,
    all: &mut Vec<Caller<R>>,
) -> Result<(), AllocError>
    requires count { vec_len passes ≡ vec_len all.old }
    requires passes { (i : ℕ) (p : PassView Turn) → get_elem? passes.items i ≡ some p → p ≡ unplayed p.lock i }
    requires numbers { (i : ℕ) (c : CallerView) → slice_get all.old.items i ≡ Some c → c.number ≡ i }
    ensures { (id : TableId) → All (λ p. p.lock ≡ id) passes.items → IfOk result (λ _. all.new.items ≡ map (with_lock id) all.old.items) }
{
    'passes: while let Some(pass) = passes.pop() {
        all[passes.len()].take(pass)?;
    }
    Ok(())
}
