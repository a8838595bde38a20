//! Memos that one caller or several threads call: clashes, worn locks, pins that outlive a sweep, and one history for
//! each shard.
ghost use Rattle.std.specs.Prelude.{◌≡◌, ◌+◌, ◌*◌, ◌%◌, ◌<◌, vec_len, All, IfOk};
ghost use Rattle.pin_table.specs.Covers.{Covered, names_of};
ghost use Rattle.pin_table.specs.Spread.{spread};

use super::*;
use memo_core::{Event, replay};
use memo_server::{Recipe, Shard};
use std::alloc::{AllocError, Global};
use std::sync::Wait;
use std::test::Fail;
use std::thread;

// Twice a number, with a digest that spreads small numbers over the shards; 1 and 257 have the same digest.
#[derive(Drop)]
struct Twice;

impl Recipe for Twice {
    ghost use Rattle.pin_table.specs.Spread.{spread};

    type In = u64;

    type Out = u64;

    ghost fits = { λ input out. out ≡ 2 * input };

    ghost digest_of = { spread };

    fn digest(input: &u64) -> [u8; 32] {
        [(*input % 256) as u8; 32]
    }

    fn same(a: &u64, b: &u64) -> bool {
        *a == *b
    }

    fn share_in(_alloc: Global, input: &u64) -> Result<u64, AllocError> {
        Ok(*input)
    }

    fn share_out(_alloc: Global, out: &u64) -> Result<u64, AllocError> {
        Ok(*out)
    }
}

// What a call returned.
#[derive(Clone, Copy, PartialEq, Eq, Debug)]
enum Said {
    Hit(u64),
    Absent,
    Clash,
    Stored(u64),
    Found(u64),
    Released,
    Swept(u64),
    Worn(u64),
    Kept,
    Mem,
}

// A caller with the pins that it holds, the last one at the end.
#[derive(Drop)]
struct Desk<R: Recipe> {
    caller: Caller<R>,
    pins: Vec<Pin<R>>,
    turns: u64,
}

impl<R: Recipe> Desk<R> {
    fn new(alloc: Global, caller: Caller<R>) -> Desk<R>
        ensures { (result.caller ≡ caller) × Covered result.caller (names_of R.digest_of result.pins.items) }
    {
        Desk {
            caller,
            pins: Vec::new(alloc),
            turns: 0,
        }
    }

    // Looks for the input, and holds the pin of a hit.
    fn look<W: Wait>(&mut self, rt: &W, memo: &Memo<R>, run: u64, input: &R::In) -> Said
        requires of { self.old.caller.locks ≡ memo.now.locks }
        requires covered { Covered self.old.caller (names_of R.digest_of self.old.pins.items) }
        ensures of { self.new.caller.locks ≡ memo.now.locks }
        ensures covered { Covered self.new.caller (names_of R.digest_of self.new.pins.items) }
    {
        if self.pins.reserve(1).is_err() {
            return Said::Mem;
        }
        let _ = self.caller.number();
        match memo.look(rt, &mut self.caller, run, input) {
            Ok(Looked::Hit(pin)) => {
                self.turns = self.turns.saturating_add(1);
                let id = id_of(&pin);
                self.pins.push_reserved(pin);
                return Said::Hit(id);
            }
            Ok(Looked::Absent) => {
                self.turns = self.turns.saturating_add(1);
                return Said::Absent;
            }
            Ok(Looked::Clash(_)) => {
                self.turns = self.turns.saturating_add(1);
                return Said::Clash;
            }
            Err(fault) => return said_of(&fault),
        }
    }

    // Keeps a result for the input, and holds the pin.
    fn keep<W: Wait>(&mut self, rt: &W, memo: &Memo<R>, run: u64, input: R::In, out: R::Out) -> Said
        requires of { self.old.caller.locks ≡ memo.now.locks }
        requires covered { Covered self.old.caller (names_of R.digest_of self.old.pins.items) }
        requires fits { R.fits input out }
        ensures of { self.new.caller.locks ≡ memo.now.locks }
        ensures covered { Covered self.new.caller (names_of R.digest_of self.new.pins.items) }
    {
        if self.pins.reserve(1).is_err() {
            return Said::Mem;
        }
        let _ = self.caller.number();
        match memo.keep(rt, &mut self.caller, run, input, out) {
            Ok(Kept::Stored(pin)) => {
                self.turns = self.turns.saturating_add(1);
                let id = id_of(&pin);
                self.pins.push_reserved(pin);
                return Said::Stored(id);
            }
            Ok(Kept::Found(pin)) => {
                self.turns = self.turns.saturating_add(1);
                let id = id_of(&pin);
                self.pins.push_reserved(pin);
                return Said::Found(id);
            }
            Ok(Kept::Clash(_, _, _)) => {
                self.turns = self.turns.saturating_add(1);
                return Said::Clash;
            }
            Err(refused) => return said_of(&refused.fault),
        }
    }

    // Releases the last pin; if the lock is worn it stays.
    fn release<W: Wait>(&mut self, rt: &W, memo: &Memo<R>) -> Said
        requires of { self.old.caller.locks ≡ memo.now.locks }
        requires covered { Covered self.old.caller (names_of R.digest_of self.old.pins.items) }
        ensures of { self.new.caller.locks ≡ memo.now.locks }
        ensures covered { Covered self.new.caller (names_of R.digest_of self.new.pins.items) }
    {
        let Some(pin) = self.pins.pop() else {
            return Said::Absent;
        };
        let _ = self.caller.number();
        match memo.release(rt, &mut self.caller, pin) {
            Ok(()) => {
                self.turns = self.turns.saturating_add(1);
                return Said::Released;
            }
            Err(pin) => {
                self.pins.push_reserved(pin);
                return Said::Kept;
            }
        }
    }

    // Sweeps a shard.
    fn sweep<W: Wait>(&mut self, rt: &W, memo: &Memo<R>, shard: u32, horizon: u64) -> Said
        requires of { self.old.caller.locks ≡ memo.now.locks }
        requires covered { Covered self.old.caller (names_of R.digest_of self.old.pins.items) }
        ensures of { self.new.caller.locks ≡ memo.now.locks }
        ensures covered { Covered self.new.caller (names_of R.digest_of self.new.pins.items) }
    {
        if shard >= memo.shards() {
            return Said::Absent;
        }
        let _ = self.caller.number();
        match memo.sweep(rt, &mut self.caller, shard, horizon) {
            Ok(dropped) => {
                self.turns = self.turns.saturating_add(1);
                return Said::Swept(dropped);
            }
            Err(fault) => return said_of(&fault),
        }
    }
}

// What a fault says.
fn said_of(fault: &MemoFault) -> Said {
    match fault {
        MemoFault::Worn { ticket } => Said::Worn(*ticket),
        MemoFault::Mem => Said::Mem,
    }
}

// The id of a pin's entry, from a share of it.
fn id_of<R: Recipe>(pin: &Pin<R>) -> u64 {
    match pin.entry() {
        Ok(entry) => entry.id(),
        Err(_) => u64::MAX,
    }
}

// A desk for each caller.
fn desks_for<R: Recipe>(
    alloc: Global,
    memo: &Memo<R>,
    mut callers: Vec<Caller<R>>,
) -> Result<Vec<Desk<R>>, AllocError>
    requires of { All (λ c. c.locks ≡ memo.now.locks) callers.items }
    ensures count { IfOk result (λ desks. vec_len desks ≡ vec_len callers) }
    ensures seated { IfOk result (λ desks. All (λ d. (d.caller.locks ≡ memo.now.locks) × Covered d.caller (names_of R.digest_of d.pins.items)) desks.items) }
{
    let mut desks = Vec::new(alloc);
    'callers: while let Some(caller) = callers.pop() {
        desks.push(Desk::new(alloc, caller))?;
    }
    Ok(desks)
}

// The last desk.
fn last_desk<R: Recipe>(memo: &Memo<R>, desks: &mut Vec<Desk<R>>) -> Desk<R>
    requires some { 0 < vec_len desks.old }
    requires seated { All (λ d. (d.caller.locks ≡ memo.now.locks) × Covered d.caller (names_of R.digest_of d.pins.items)) desks.old.items }
    ensures count { vec_len desks.new + 1 ≡ vec_len desks.old }
    ensures seated { All (λ d. (d.caller.locks ≡ memo.now.locks) × Covered d.caller (names_of R.digest_of d.pins.items)) desks.new.items }
    ensures of { result.caller.locks ≡ memo.now.locks }
    ensures covered { Covered result.caller (names_of R.digest_of result.pins.items) }
{
    match desks.pop() {
        Some(desk) => desk,
        None => unreachable!(),
    }
}

// The callers of the desks, whose pins are dropped.
fn callers_of<R: Recipe>(
    alloc: Global,
    memo: &Memo<R>,
    mut desks: Vec<Desk<R>>,
) -> Result<Vec<Caller<R>>, AllocError>
    requires seated { All (λ d. (d.caller.locks ≡ memo.now.locks) × Covered d.caller (names_of R.digest_of d.pins.items)) desks.items }
    ensures count { IfOk result (λ callers. vec_len callers ≡ vec_len desks) }
    ensures of { IfOk result (λ callers. All (λ c. c.locks ≡ memo.now.locks) callers.items) }
{
    let mut callers = Vec::new(alloc);
    'desks: while let Some(desk) = desks.pop() {
        let Desk {
            caller,
            pins: _,
            turns: _,
        } = desk;
        callers.push(caller)?;
    }
    Ok(callers)
}

// How many of the events are the caller's.
fn made_by(history: &[Event], number: u64) -> u64 {
    let mut made = 0u64;
    for event in history {
        let caller = match event {
            Event::Look { caller, .. } => *caller,
            Event::Keep { caller, .. } => *caller,
            Event::Release { caller, .. } => *caller,
            Event::Sweep { caller, .. } => *caller,
        };
        if caller == number {
            made = made.saturating_add(1);
        }
    }
    made
}

#[test]
fn equal_digests_of_unequal_inputs_clash(rt: HostRuntime) -> Result<(), Fail> {
    let (memo, callers) = Memo::<Twice>::new(rt.alloc(), 1, 1)?;
    let mut desks = desks_for(rt.alloc(), &memo, callers)?;
    let mut desk = last_desk(&memo, &mut desks);
    assert!(rt; desk.keep(&rt, &memo, 1, 1, 2) == Said::Stored(0));
    let looked = memo.look(&rt, &mut desk.caller, 1, &257);
    assert!(rt; matches!(&looked, Ok(Looked::Clash(entry)) if *entry.input() == 1));
    let kept = memo.keep(&rt, &mut desk.caller, 1, 257, 514);
    assert!(rt; matches!(&kept, Ok(Kept::Clash(_, 257, 514))));
    Ok(())
}

#[test]
fn a_worn_lock_refuses(rt: HostRuntime) -> Result<(), Fail> {
    let (memo, callers) = Memo::<Twice>::starting_at(rt.alloc(), (1 << 62) - 1, 1, 1)?;
    let mut desks = desks_for(rt.alloc(), &memo, callers)?;
    let mut desk = last_desk(&memo, &mut desks);
    assert!(rt; desk.keep(&rt, &memo, 1, 1, 2) == Said::Stored(0));
    assert!(rt; desk.look(&rt, &memo, 1, &1) == Said::Worn(1 << 62));
    assert!(rt; desk.release(&rt, &memo) == Said::Kept);
    assert!(rt; desk.pins.len() == 1);
    assert!(rt; desk.sweep(&rt, &memo, 0, 9) == Said::Worn(1 << 62));
    Ok(())
}

#[test]
fn a_pinned_entry_outlives_a_sweep(rt: HostRuntime) -> Result<(), Fail> {
    let (memo, callers) = Memo::<Twice>::new(rt.alloc(), 1, 2)?;
    let mut desks = desks_for(rt.alloc(), &memo, callers)?;
    let mut first = last_desk(&memo, &mut desks);
    let mut second = last_desk(&memo, &mut desks);
    assert!(rt; first.look(&rt, &memo, 1, &1) == Said::Absent);
    assert!(rt; first.keep(&rt, &memo, 1, 1, 2) == Said::Stored(0));
    assert!(rt; second.look(&rt, &memo, 2, &1) == Said::Hit(0));
    assert!(rt; first.release(&rt, &memo) == Said::Released);
    assert!(rt; second.sweep(&rt, &memo, 0, 9) == Said::Swept(0));
    assert!(rt; second.release(&rt, &memo) == Said::Released);
    assert!(rt; second.sweep(&rt, &memo, 0, 2) == Said::Swept(0));
    assert!(rt; second.sweep(&rt, &memo, 0, 3) == Said::Swept(1));
    assert!(rt; second.look(&rt, &memo, 3, &1) == Said::Absent);
    desks.push(first)?;
    desks.push(second)?;
    let callers = callers_of(rt.alloc(), &memo, desks)?;
    let Ok(shards) = memo.close(callers) else {
        panic!(rt; "memory was there")
    };
    assert!(rt; shards.len() == 1);
    let history = shards[0].history();
    assert!(rt; history.len() == 9);
    let end = replay(rt.alloc(), history)?;
    assert!(rt; matches!(&end, Some(state) if state.entries.is_empty() && state.next == 1));
    assert!(rt; replay(rt.alloc(), &history[2..3])?.is_none());
    Ok(())
}

#[test]
fn pins_are_given_up_for_good(rt: HostRuntime) -> Result<(), Fail> {
    let (memo, callers) = Memo::<Twice>::new(rt.alloc(), 1, 1)?;
    let mut desks = desks_for(rt.alloc(), &memo, callers)?;
    let mut desk = last_desk(&memo, &mut desks);
    assert!(rt; desk.keep(&rt, &memo, 1, 1, 2) == Said::Stored(0));
    assert!(rt; desk.look(&rt, &memo, 1, &1) == Said::Hit(0));
    let Desk {
        mut caller,
        pins,
        turns: _,
    } = desk;
    memo.give_up_all(&rt, &mut caller, pins);
    assert!(rt; matches!(memo.sweep(&rt, &mut caller, 0, 9), Ok(1)));
    Ok(())
}

#[test]
fn inputs_stand_in_the_shards_of_their_digests(rt: HostRuntime) -> Result<(), Fail> {
    let (memo, callers) = Memo::<Twice>::new(rt.alloc(), 3, 1)?;
    assert!(rt; memo.shards() == 3 && memo.callers() == 1 && memo.start() == 0);
    let mut desks = desks_for(rt.alloc(), &memo, callers)?;
    let mut desk = last_desk(&memo, &mut desks);
    // Inputs 3 and 6 belong to shard 0, 4 to shard 1, and each shard counts its ids from 0.
    assert!(rt; shard_of(&Twice::digest(&3), 3) == 0 && shard_of(&Twice::digest(&4), 3) == 1);
    assert!(rt; desk.keep(&rt, &memo, 1, 3, 6) == Said::Stored(0));
    assert!(rt; desk.keep(&rt, &memo, 1, 4, 8) == Said::Stored(0));
    assert!(rt; desk.keep(&rt, &memo, 1, 6, 12) == Said::Stored(1));
    assert!(rt; desk.keep(&rt, &memo, 2, 6, 12) == Said::Found(1));
    assert!(rt; desk.look(&rt, &memo, 2, &4) == Said::Hit(0));
    assert!(rt; desk.pins.len() == 5);
    assert!(rt; matches!(desk.pins.last(), Some(pin) if *pin.out() == 8));
    assert!(rt; desk.sweep(&rt, &memo, 2, 9) == Said::Swept(0));
    desks.push(desk)?;
    let callers = callers_of(rt.alloc(), &memo, desks)?;
    let Ok(shards) = memo.close(callers) else {
        panic!(rt; "memory was there")
    };
    assert!(rt; shards.len() == 3);
    assert!(rt; shards[0].history().len() == 3);
    assert!(rt; shards[1].history().len() == 2);
    assert!(rt; shards[2].history().len() == 1);
    Ok(())
}

// Looks, keeps what is absent, releases pins and sweeps, over and over.
fn works<W: Wait>(rt: &W, memo: &Memo<Twice>, desk: &mut Desk<Twice>, rounds: u64)
    requires of { desk.old.caller.locks ≡ memo.now.locks }
    requires covered { Covered desk.old.caller (names_of spread desk.old.pins.items) }
    ensures of { desk.new.caller.locks ≡ memo.now.locks }
    ensures covered { Covered desk.new.caller (names_of spread desk.new.pins.items) }
{
    'rounds: for round in 0..rounds {
        play_round(rt, memo, desk, round);
    }
}

// One round.
fn play_round<W: Wait>(rt: &W, memo: &Memo<Twice>, desk: &mut Desk<Twice>, round: u64)
    requires of { desk.old.caller.locks ≡ memo.now.locks }
    requires covered { Covered desk.old.caller (names_of spread desk.old.pins.items) }
    ensures of { desk.new.caller.locks ≡ memo.now.locks }
    ensures covered { Covered desk.new.caller (names_of spread desk.new.pins.items) }
{
    let input = round % 20;
    if desk.look(rt, memo, round, &input) == Said::Absent {
        desk.keep(rt, memo, round, input, 2 * input);
    }
    if round % 3 != 0 {
        desk.release(rt, memo);
    }
    if round % 25 == 0 {
        desk.sweep(rt, memo, (round % 3) as u32, round);
    }
}

#[test]
fn threads_share_one_history_a_shard(rt: HostRuntime) -> Result<(), Fail> {
    let (threads, rounds) = (4, 300);
    let (memo, callers) = Memo::<Twice>::new(rt.alloc(), 3, threads as u32)?;
    let mut desks = desks_for(rt.alloc(), &memo, callers)?;
    thread::for_each_mut(
        &rt,
        desks.as_mut_slice(),
        threads,
        &|_, desk: &mut Desk<Twice>|
            requires { (desk.now.caller.locks ≡ memo.locks) × Covered desk.now.caller (names_of spread desk.now.pins.items) }
            ensures { (desk.exit.now.caller.locks ≡ memo.locks) × Covered desk.exit.now.caller (names_of spread desk.exit.now.pins.items) }
        { works(&rt, &memo, desk, rounds) },
    );
    let mut made = Vec::new(rt.alloc());
    for desk in &desks {
        made.push((desk.caller.number(), desk.turns))?;
    }
    let callers = callers_of(rt.alloc(), &memo, desks)?;
    let Ok(shards) = memo.close(callers) else {
        panic!(rt; "memory was there")
    };
    assert!(rt; shards.len() == 3);
    for shard in &shards {
        assert!(rt; replay(rt.alloc(), shard.history())?.is_some());
    }
    for (number, turns) in &made {
        let mut events = 0u64;
        for shard in &shards {
            events = events.saturating_add(made_by(shard.history(), *number));
        }
        assert_eq!(rt; events, *turns);
    }
    Ok(())
}
