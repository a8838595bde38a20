//! How a board is made and closed: the tasks move into slots, and one seat is divided into hands; at the end all tasks
//! come back in order.
ghost use Rattle.std.specs.Prelude.{◌≡◌, ℕ, ◌+◌, ◌<◌, ◌≤◌, List, [], ◌∷◌, ◌++◌, map, length, vec_len, vec_capacity, Some, None, IsSome, All, true, false, IfOk, IfErr, ◌-◌, ◌^◌, slice_index_or};
ghost use Rattle.std.specs.Slots.{slots_items, slots_filled, slots_len, IsFull};
ghost use mathlib.Core.Option.{some};
ghost use lib.ListN.{get_elem?};
ghost use Rattle.worker_claims.specs.declared.knowledge.Doing.TheVariants.{Free};
ghost use Rattle.worker_claims.specs.Rule.{without_one, the_one, with, newcomer};
ghost use Rattle.worker_claims.specs.Views.{fresh};
ghost use Rattle.worker_claims.specs.Hands.{IsHandOf, HasEnded, times, IsClosed};

use crate::knowledge::View;
use crate::plays::{Deal, Gather};
use crate::rule::Setup;
use crate::spare::Spare;
use crate::tokens::{Board, Hand};
use atomic_table::{Closed, Refused, Seat, Table};
use std::alloc::{AllocError, Global};
use std::snapshot::Snapshot;

// Moves the tasks, in their order, into slots. Their row keeps its room.
pub(crate) fn move_out<T>(tasks: &mut Vec<T>, slots: &mut Vec<Option<T>>)
    requires { (slots.old.items ≡ []) × (vec_len tasks.old ≤ vec_capacity slots.old) }
    ensures slots { slots.new.items ≡ map Some tasks.old.items }
    ensures tasks { (tasks.new.items ≡ []) × (vec_capacity tasks.new ≡ vec_capacity tasks.old) }
{
    tasks.as_mut_slice().reverse();
    while let Some(task) = tasks.pop() {
        slots.push_reserved(Some(task));
    }
}

// Moves the tasks back into their row.
pub(crate) fn move_back<T>(mut slots: Vec<Option<T>>, tasks: &mut Vec<T>)
    requires some { All (λ o. IsSome o) slots.items }
    requires row { (tasks.old.items ≡ []) × (vec_len slots ≤ vec_capacity tasks.old) }
    ensures { map Some tasks.new.items ≡ slots.items }
{
    slots.as_mut_slice().reverse();
    while let Some(slot) = slots.pop() {
        tasks.push_reserved(slot.unwrap());
    }
    slots.destroy_empty();
}

// Collects each slot's task, in order.
fn collect<T>(closed: &mut Closed<Option<T>, Global>, row: &mut Vec<T>, count: u64)
    requires slots { (slots_len closed.old.slots ≡ count) × IsFull closed.old.slots }
    requires some { All (λ o. IsSome o) (slots_items closed.old.slots) }
    requires row { (row.old.items ≡ []) × (count ≤ vec_capacity row.old) }
    ensures row { map Some row.new.items ≡ slots_items closed.old.slots }
    ensures gone { (k : ℕ) → k < slots_len closed.new.slots → slice_index_or (slots_filled closed.new.slots) k false ≡ false }
{
    for k in 0..count {
        row.push_reserved(closed.take(k as usize).unwrap());
    }
}

impl<T> Hand<T> {
    fn into_seat(self) -> Seat<Option<T>, View<T>>
        requires { HasEnded self.doing }
        ensures { (result.table_id ≡ self.board) × (result.me.0.parts ≡ 1) × (result.me.0.doing ≡ self.doing) × (result.me.0.given ≡ self.given) × (result.me.1 ≡ []) }
    {
        let Hand { seat, done: _ } = self;
        seat
    }
}

impl<T> Board<T> {
    // A seat for one hand more.
    fn split(&self, seat: &mut Seat<Option<T>, View<T>>) -> Seat<Option<T>, View<T>>
        requires { (seat.old.table_id ≡ self.now.id) × (seat.old.me.0.doing ≡ Free) × (1 < seat.old.me.0.parts) }
        ensures { (seat.new.table_id ≡ seat.old.table_id) × (result.table_id ≡ seat.old.table_id) × (seat.new.me ≡ (without_one seat.old.me.0, seat.old.me.1)) × (result.me ≡ (the_one seat.old.me.0, [])) }
    {
        self.table.shared.split_seat::<Deal>(seat)
    }

    // What the other hand gave goes to the kept one.
    fn join(&self, kept: &mut Seat<Option<T>, View<T>>, other: Seat<Option<T>, View<T>>)
        requires { (kept.old.table_id ≡ self.now.id) × (other.table_id ≡ self.now.id) × (other.me.1 ≡ []) × HasEnded kept.old.me.0.doing × HasEnded other.me.0.doing }
        ensures { (kept.new.table_id ≡ kept.old.table_id) × (kept.new.me ≡ (with kept.old.me.0 other.me.0, kept.old.me.1)) }
    {
        self.table.shared.join_seat::<Gather>(kept, other);
    }

    // Makes all hands; the one that the table came with is the last.
    fn deal(&self, mut first: Seat<Option<T>, View<T>>, made: &mut Vec<Hand<T>>, hands: u64)
        requires first { (first.table_id ≡ self.now.id) × (first.me ≡ (newcomer self.now.tasks hands, [])) }
        requires hands { (0 < hands) × (hands ≤ vec_capacity made.old) × (made.old.items ≡ []) }
        ensures hands { All (λ h. h ≡ fresh self.now.id self.now.tasks) made.new.items }
        ensures count { vec_len made.new ≡ hands }
    {
        for _number in 1..hands {
            let seat = self.split(&mut first);
            made.push_reserved(Hand { seat, done: false });
        }
        made.push_reserved(Hand {
            seat: first,
            done: false,
        });
    }

    /// The tasks at their places, each as it was given back. It does not block and takes no memory.
    pub fn close(self, mut hands: Vec<Hand<T>>) -> Vec<T>
        requires hands { All (λ h. IsHandOf self h × HasEnded h.doing) hands.items }
        requires all { vec_len hands ≡ self.hands }
        ensures { IsClosed self.tasks hands.items result.items }
    {
        let Some(first) = hands.pop() else {
            unreachable!()
        };
        let mut kept = first.into_seat();
        'hands: while let Some(hand) = hands.pop() {
            self.join(&mut kept, hand.into_seat());
        }
        hands.destroy_empty();
        self.gather(kept)
    }

    // The tasks at their places, once only one seat is left.
    fn gather(self, kept: Seat<Option<T>, View<T>>) -> Vec<T>
        requires of { kept.table_id ≡ self.id }
        requires ended { HasEnded kept.me.0.doing × (kept.me.0.parts ≡ self.hands) }
        ensures count { length result.items ≡ length self.tasks }
        ensures given { (k : ℕ) (t : T) → get_elem? result.items k ≡ some t → (i : ℕ) × (get_elem? kept.me.0.given i ≡ some (k, t)) }
        ensures once { (k : ℕ) → k < length self.tasks → times k kept.me.0.given ≡ 1 }
    {
        let Board {
            table,
            spare,
            count,
        } = self;
        let mut row = spare.take();
        let mut closed = table.close_with(kept);
        collect(&mut closed, &mut row, count);
        closed.free();
        row
    }
}

impl<T: Drop> Board<T> {
    /// A board of these tasks, with its hands.
    ///
    /// # Errors
    ///
    /// Out of memory. The tasks come back unchanged.
    pub fn new(
        alloc: Global,
        mut tasks: Vec<T>,
        hands: u32,
    ) -> Result<(Board<T>, Vec<Hand<T>>), (AllocError, Vec<T>)>
        requires tasks { vec_len tasks < 2 ^ 32 }
        requires hands { (0 < hands) × (hands ≤ 16) }
        ensures board { IfOk result (λ r. (r.0.tasks ≡ tasks.items) × (r.0.hands ≡ hands)) }
        ensures hands { IfOk result (λ r. All (λ h. h ≡ fresh r.0.id r.0.tasks) r.1.items × (vec_len r.1 ≡ hands)) }
        ensures err { IfErr result (λ e. e.1.items ≡ tasks.items) }
    {
        let count = tasks.len();
        let Ok(mut made) = Vec::with_capacity(alloc, hands as usize) else {
            return Err((AllocError, tasks));
        };
        let Ok(mut slots) = Vec::with_capacity(alloc, count) else {
            return Err((AllocError, tasks));
        };
        let setup = Setup {
            tasks: Snapshot::of(&tasks),
            hands: hands as u64,
        };
        move_out(&mut tasks, &mut slots);
        let spare = match Spare::new(alloc, tasks, count as u64) {
            Ok(spare) => spare,
            Err(mut row) => {
                move_back(slots, &mut row);
                return Err((AllocError, row));
            }
        };
        match Table::new(alloc, &[0], slots, &setup) {
            Ok((table, first)) => {
                let board = Board {
                    table,
                    spare,
                    count: count as u64,
                };
                board.deal(first, &mut made, hands as u64);
                Ok((board, made))
            }
            Err(Refused { slots }) => {
                let mut row = spare.take();
                move_back(slots, &mut row);
                Err((AllocError, row))
            }
        }
    }
}
