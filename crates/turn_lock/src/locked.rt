//! The steps of a turn: a check, a ticket, the wait for it, the play on the state, and the step to the next ticket.
ghost use Rattle.std.specs.Prelude.{◌≡◌, ◌≢◌, ℕ, ◌+◌, ◌^◌, ◌<◌, ◌≤◌, ◌⊎◌, List, [], ◌∷◌, ◌++◌, length, Some, None, IfOk, IfErr};
ghost use mathlib.Core.Option.{none};
ghost use Rattle.atomic_table.specs.Table.{step, rest};
ghost use Rattle.turn_lock.specs.declared.knowledge.Stage.TheVariants.{Idle, Marked, Drawn, Serving};
ghost use Rattle.turn_lock.specs.Under.{under};
ghost use Rattle.turn_lock.specs.Rule.{checked, drew, passed, Came};
ghost use Rattle.turn_lock.specs.Passes.{WasWorn, Played};

use crate::knowledge::View;
use crate::plays::{Check, Draw, Look, PassOn};
use crate::state::Turns;
use crate::tokens::{Pass, TurnLock, Turned};
use atomic_table::Seat;
use std::sync::Wait;
use std::thread;

// The word with the ticket that is drawn next.
const TICKET: usize = 0;

// The word with the ticket whose turn it is.
const SERVING: usize = 1;

// A lock is worn from this ticket on.
const LIMIT: u64 = 1 << 62;

// A waiter sleeps after this many looks. Until then it lets others run between looks, since many turns are short.
const LOOKS_AWAKE: u32 = 200;

impl<T: Turns> TurnLock<T> {
    // Loads the next ticket, and marks the seat if it is below the limit.
    fn check(&self, seat: &mut Seat<Option<T>, View<T::Entry>>) -> u64
        requires { (seat.old.table_id ≡ self.now.id) × (seat.old.me.0.stage ≡ Idle) }
        ensures { (seat.new.table_id ≡ seat.old.table_id) × checked T.history (step 1 0 0 0 none) seat.old.me result seat.new.me }
    {
        self.table.shared.load::<Check<T>>(seat, TICKET)
    }

    // Draws the next ticket. Only a marked seat may, so the word cannot wrap.
    fn draw(&self, seat: &mut Seat<Option<T>, View<T::Entry>>) -> u64
        requires { (seat.old.table_id ≡ self.now.id) × (seat.old.me.0.stage ≡ Marked) }
        ensures { (seat.new.table_id ≡ seat.old.table_id) × drew T.history (step 1 0 1 0 none) seat.old.me result seat.new.me }
    {
        self.table.shared.fetch_add::<Draw<T>>(seat, TICKET, 1)
    }

    // Looks until the ticket's turn has come. Between looks it lets others run, and later sleeps while the word stays
    // the same. The last look takes the slot.
    fn await_turn<R: Wait>(&self, rt: &R, seat: &mut Seat<Option<T>, View<T::Entry>>, drawn: u64)
        requires { (seat.old.table_id ≡ self.now.id) × (seat.old.me.0.stage ≡ Drawn drawn) }
        ensures { (seat.new.table_id ≡ seat.old.table_id) × Came T.history T.whose drawn seat.old.me seat.new.me }
    {
        let mut awake = LOOKS_AWAKE;
        for _ in rt.forever() {
            let now = self.table.shared.load::<Look<T>>(seat, SERVING);
            if now == drawn {
                return;
            }
            if awake > 0 {
                awake -= 1;
                thread::yield_now();
            } else {
                self.table
                    .shared
                    .park(rt, SERVING, (now & 0xffff_ffff) as u32);
            }
        }
        unreachable!()
    }

    // Takes the state out of the slot.
    fn take(&self, seat: &mut Seat<Option<T>, View<T::Entry>>) -> T
        requires { (seat.old.table_id ≡ self.now.id) × ((t : T) × (seat.old.me.1 ≡ (0, Some t) ∷ [])) }
        ensures { (seat.new.table_id ≡ seat.old.table_id) × (seat.new.me.0 ≡ seat.old.me.0) × (seat.old.me.1 ≡ (0, Some result) ∷ []) × (seat.new.me.1 ≡ (0, None) ∷ []) }
    {
        self.table.shared.exchange(seat, 0, None).unwrap()
    }

    // Puts the state back into the slot.
    fn put(&self, seat: &mut Seat<Option<T>, View<T::Entry>>, state: T)
        requires { (seat.old.table_id ≡ self.now.id) × (seat.old.me.1 ≡ (0, None) ∷ []) }
        ensures { (seat.new.table_id ≡ seat.old.table_id) × (seat.new.me.0 ≡ seat.old.me.0) × (seat.new.me.1 ≡ (0, Some state) ∷ []) }
    {
        match self.table.shared.exchange(seat, 0, Some(state)) {
            None => {}
            Some(_) => unreachable!(),
        }
    }

    // Gives the slot back and serves the next ticket. If that ticket is drawn, it wakes the sleepers.
    fn pass_on(&self, seat: &mut Seat<Option<T>, View<T::Entry>>)
        requires seat { (seat.old.table_id ≡ self.now.id) }
        requires turn { (d : ℕ) × (note : List T.Entry) × (t : T) × (e : T.Entry) × (seat.old.me.0.stage ≡ Serving d note) × (seat.old.me.1 ≡ (0, Some t) ∷ []) × (T.history t ≡ note ++ e ∷ []) × ((T.whose e ≡ Some seat.old.me.0.own.number) ⊎ (T.whose e ≡ None)) }
        ensures { (seat.new.table_id ≡ seat.old.table_id) × passed T.history T.whose (step 1 1 1 0 none) seat.old.me 0 seat.new.me }
    {
        let served = self.table.shared.fetch_add::<PassOn<T>>(seat, SERVING, 1);
        if self.table.shared.peek(TICKET) > served.saturating_add(1) {
            self.table.shared.wake_all(SERVING);
        }
    }

    /// Takes a turn: plays `op` under the pass's number, after the turns of those who drew a ticket before. It may
    /// block.
    ///
    /// # Errors
    ///
    /// `Worn` exactly if this call's check found the next ticket at 2^62 or more. Nothing was played, and `op` comes
    /// back.
    pub fn turn<R: Wait>(
        &self,
        rt: &R,
        pass: &mut Pass<T>,
        op: T::Op,
    ) -> Result<T::Reply, Turned<T::Op>>
        requires of { pass.old.lock ≡ self.now.id }
        requires may { T.may (under T.whose pass.old.known.number pass.old.known.mine) op }
        ensures of { (pass.new.lock ≡ pass.old.lock) × (pass.new.known.number ≡ pass.old.known.number) }
        ensures worn { IfErr result (λ w. WasWorn op w pass.old.known pass.new.known) }
        ensures played { IfOk result (λ reply. Played T.whose T.answers T.legal op reply pass.old.known pass.new.known) }
    {
        let number = pass.number;
        let seat = &mut pass.seat;
        let ticket = self.check(seat);
        if ticket >= LIMIT {
            return Err(Turned::Worn { ticket, op });
        }
        let drawn = self.draw(seat);
        self.await_turn(rt, seat, drawn);
        let mut state = self.take(seat);
        let reply = state.play(number, op);
        self.put(seat, state);
        self.pass_on(seat);
        Ok(reply)
    }
}
