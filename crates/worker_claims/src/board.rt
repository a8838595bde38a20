//! Claiming a task and giving it back, each one atomic step at the board: a number is claimed once, and its task
//! returns to its place.
ghost use Rattle.std.specs.Prelude.{◌≡◌, ℕ, [], ◌∷◌, ◌++◌, Some, None, IfSome};
ghost use Rattle.worker_claims.specs.declared.knowledge.Doing.TheVariants.{Free, HasTask};
ghost use Rattle.worker_claims.specs.Rule.{has_given, IsAbove};
ghost use Rattle.worker_claims.specs.Hands.{IsHandOf, HoldsNone, IsClaim};

use crate::knowledge::View;
use crate::plays::{Claim, Give};
use crate::tokens::{Board, Hand};
use atomic_table::Seat;

impl<T> Board<T> {
    /// The next task with its number; `None` if all were claimed, or if this hand got `None` before. A hand's numbers
    /// rise. It does not block and takes no memory.
    pub fn claim(&self, hand: &mut Hand<T>) -> Option<(u64, T)>
        requires of { IsHandOf self.now hand.old }
        requires idle { HoldsNone hand.old.doing }
        ensures of { IsHandOf self.now hand.new }
        ensures task { IsClaim self.now.tasks hand.old.doing hand.new.doing result }
        ensures given { hand.new.given ≡ hand.old.given }
        ensures rises { IfSome result (λ claim. IsAbove hand.old.given claim.0) }
    {
        if hand.done {
            return None;
        }
        let number = self.table.shared.fetch_add::<Claim>(&mut hand.seat, 0, 1);
        if number >= self.count {
            hand.done = true;
            return None;
        }
        let task = self
            .table
            .shared
            .exchange(&mut hand.seat, number as usize, None)
            .unwrap();
        Some((number, task))
    }

    /// Gives back the task that the hand holds, done. It does not block and takes no memory.
    pub fn give(&self, hand: &mut Hand<T>, number: u64, task: T)
        requires of { IsHandOf self.now hand.old }
        requires holds { hand.old.doing ≡ HasTask number }
        ensures of { IsHandOf self.now hand.new }
        ensures free { hand.new.doing ≡ Free }
        ensures given { hand.new.given ≡ hand.old.given ++ (number, task) ∷ [] }
    {
        self.settle(&mut hand.seat, number, task);
    }

    // Puts the task into its slot, and brings the slot home.
    fn settle(&self, seat: &mut Seat<Option<T>, View<T>>, number: u64, task: T)
        requires of { seat.old.table_id ≡ self.now.id }
        requires holds { (seat.old.me.0.doing ≡ HasTask number) × (seat.old.me.1 ≡ (number, None) ∷ []) }
        ensures { (seat.new.table_id ≡ seat.old.table_id) × (seat.new.me ≡ (has_given number task seat.old.me.0, [])) }
    {
        self.put(seat, number, task);
        self.bring_home(seat);
    }

    // Puts the task into its slot, which is out with the seat.
    fn put(&self, seat: &mut Seat<Option<T>, View<T>>, number: u64, task: T)
        requires { (seat.old.table_id ≡ self.now.id) × (seat.old.me.1 ≡ (number, None) ∷ []) }
        ensures { (seat.new.table_id ≡ seat.old.table_id) × (seat.new.me ≡ (seat.old.me.0, (number, Some task) ∷ [])) }
    {
        match self
            .table
            .shared
            .exchange(seat, number as usize, Some(task))
        {
            None => {}
            Some(_) => unreachable!(),
        }
    }

    // Brings the slot home, by a load of the word.
    fn bring_home(&self, seat: &mut Seat<Option<T>, View<T>>)
        requires of { seat.old.table_id ≡ self.now.id }
        requires task { (k : ℕ) × (t : T) × (seat.old.me.0.doing ≡ HasTask k) × (seat.old.me.1 ≡ (k, Some t) ∷ []) }
        ensures { (seat.new.table_id ≡ seat.old.table_id) × ((k : ℕ) (t : T) → seat.old.me.0.doing ≡ HasTask k → seat.old.me.1 ≡ (k, Some t) ∷ [] → seat.new.me ≡ (has_given k t seat.old.me.0, [])) }
    {
        self.table.shared.load::<Give>(seat, 0);
    }
}
