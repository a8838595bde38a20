//! How a lock is made and closed: one seat is divided into as many passes as there are callers, and at the end these
//! are joined again.
ghost use Rattle.std.specs.Prelude.{◌≡◌, ℕ, ◌+◌, ◌-◌, ◌^◌, ◌<◌, ◌≤◌, List, [], ◌∷◌, ◌++◌, map, length, vec_len, vec_capacity, Some, None, IfOk, All};
ghost use Rattle.turn_lock.specs.declared.knowledge.Stage.TheVariants.{Idle};
ghost use Rattle.turn_lock.specs.Rule.{without_one, the_one, with, dealt};
ghost use mathlib.Core.Option.{some};
ghost use lib.ListN.{get_elem?};
ghost use Rattle.turn_lock.specs.Views.{unplayed};
ghost use Rattle.turn_lock.specs.Passes.{Closes};

use crate::knowledge::View;
use crate::plays::{Deal, Gather};
use crate::rule::Setup;
use crate::state::Turns;
use crate::tokens::{Pass, TurnLock};
use atomic_table::{Refused, Seat, Table};
use std::alloc::{AllocError, Global};

impl<T: Turns> TurnLock<T> {
    // A seat for the next number that this one gives out.
    fn split(&self, seat: &mut Seat<Option<T>, View<T::Entry>>) -> Seat<Option<T>, View<T::Entry>>
        requires { (seat.old.table_id ≡ self.now.id) × (seat.old.me.0.stage ≡ Idle) × (0 < seat.old.me.0.gives) }
        ensures { (seat.new.table_id ≡ seat.old.table_id) × (result.table_id ≡ seat.old.table_id) × (seat.new.me ≡ (without_one seat.old.me.0, seat.old.me.1)) × (result.me ≡ (the_one seat.old.me.0, [])) }
    {
        self.table.shared.split_seat::<Deal>(seat)
    }

    // What the other seat knew goes into the list of ended passes.
    fn join(
        &self,
        kept: &mut Seat<Option<T>, View<T::Entry>>,
        other: Seat<Option<T>, View<T::Entry>>,
    )
        requires { (kept.old.table_id ≡ self.now.id) × (other.table_id ≡ self.now.id) × (other.me.1 ≡ []) × (kept.old.me.0.stage ≡ Idle) × (other.me.0.stage ≡ Idle) × (other.me.0.gives ≡ 0) }
        ensures { (kept.new.table_id ≡ kept.old.table_id) × (kept.new.me ≡ (with kept.old.me.0 other.me.0, kept.old.me.1)) }
    {
        self.table.shared.join_seat::<Gather>(kept, other);
    }

    // All passes but the first, in the order of their numbers.
    fn deal(
        &self,
        first: &mut Seat<Option<T>, View<T::Entry>>,
        passes: &mut Vec<Pass<T>>,
        callers: u64,
    )
        requires first { (first.old.table_id ≡ self.now.id) × (first.old.me ≡ (dealt callers (callers - 1), [])) }
        requires callers { (0 < callers) × (callers ≤ 64) × (callers ≤ vec_capacity passes.old) }
        requires passes { passes.old.items ≡ [] }
        ensures first { (first.new.table_id ≡ first.old.table_id) × (first.new.me ≡ (dealt callers 0, [])) }
        ensures passes { All (λ p. p.lock ≡ self.now.id) passes.new.items }
        ensures numbers { (i : ℕ) (p : _) → get_elem? passes.new.items i ≡ some p → p ≡ unplayed self.now.id (i + 1) }
        ensures count { (vec_len passes.new + 1 ≡ callers) × (vec_capacity passes.new ≡ vec_capacity passes.old) }
    {
        for number in 1..callers {
            let seat = self.split(first);
            passes.push_reserved(Pass { number, seat });
        }
    }

    /// Gives the state back, once every pass is given back. It takes no memory.
    pub fn close(self, mut passes: Vec<Pass<T>>) -> T
        requires of { All (λ p. p.lock ≡ self.id) passes.items }
        requires all { vec_len passes ≡ self.callers }
        ensures { Closes T.whose self.start (T.history result) (map (λ p. p.known) passes.items) }
    {
        let Some(
            Pass {
                number: _,
                seat: mut kept,
            },
        ) = passes.pop()
        else {
            unreachable!()
        };
        'passes: while let Some(Pass { number: _, seat }) = passes.pop() {
            self.join(&mut kept, seat);
        }
        passes.destroy_empty();
        self.finish(kept)
    }

    // The state, once only one seat is left.
    fn finish(self, kept: Seat<Option<T>, View<T::Entry>>) -> T
        requires of { kept.table_id ≡ self.id }
        requires idle { kept.me.0.stage ≡ Idle }
        requires all { length kept.me.0.ended + 1 ≡ self.callers }
        ensures { Closes T.whose self.start (T.history result) (kept.me.0.ended ++ kept.me.0.own ∷ []) }
    {
        let TurnLock { table } = self;
        let mut closed = table.close_with(kept);
        let state = closed.take(0).unwrap();
        closed.free();
        state
    }
}

impl<T: Turns + Drop> TurnLock<T> {
    /// A lock whose first ticket is 0, with its passes in the order of their numbers, from 0 on.
    ///
    /// # Errors
    ///
    /// Out of memory. The state is dropped.
    pub fn new(
        alloc: Global,
        state: T,
        callers: u32,
    ) -> Result<(TurnLock<T>, Vec<Pass<T>>), AllocError>
        requires callers { (0 < callers) × (callers ≤ 64) }
        requires state { T.history state ≡ [] }
        ensures lock { IfOk result (λ r. (r.0.start ≡ 0) × (r.0.callers ≡ callers)) }
        ensures of { IfOk result (λ r. All (λ p. p.lock ≡ r.0.id) r.1.items) }
        ensures passes { IfOk result (λ r. (length r.1.items ≡ callers) × ((i : ℕ) (p : _) → get_elem? r.1.items i ≡ some p → p ≡ unplayed r.0.id i)) }
    {
        TurnLock::starting_at(alloc, 0, state, callers)
    }

    /// A lock whose first ticket is `n`, with its passes in the order of their numbers, from 0 on.
    ///
    /// # Errors
    ///
    /// Out of memory. The state is dropped.
    pub fn starting_at(
        alloc: Global,
        n: u64,
        state: T,
        callers: u32,
    ) -> Result<(TurnLock<T>, Vec<Pass<T>>), AllocError>
        requires start { n ≤ 2 ^ 62 }
        requires callers { (0 < callers) × (callers ≤ 64) }
        requires state { T.history state ≡ [] }
        ensures lock { IfOk result (λ r. (r.0.start ≡ n) × (r.0.callers ≡ callers)) }
        ensures of { IfOk result (λ r. All (λ p. p.lock ≡ r.0.id) r.1.items) }
        ensures passes { IfOk result (λ r. (length r.1.items ≡ callers) × ((i : ℕ) (p : _) → get_elem? r.1.items i ≡ some p → p ≡ unplayed r.0.id i)) }
    {
        let mut passes = Vec::with_capacity(alloc, callers as usize)?;
        let mut slots = Vec::with_capacity(alloc, 1)?;
        slots.push_reserved(Some(state));
        let setup = Setup {
            start: n,
            callers: callers as u64,
        };
        match Table::new(alloc, &[n, n], slots, &setup) {
            Ok((table, mut first)) => {
                let lock = TurnLock { table };
                lock.deal(&mut first, &mut passes, callers as u64);
                let first = Pass {
                    number: 0,
                    seat: first,
                };
                match passes.insert(0, first) {
                    Ok(()) => Ok((lock, passes)),
                    Err(_) => unreachable!(),
                }
            }
            Err(Refused { slots: _ }) => Err(AllocError),
        }
    }
}
