//! The rule of the lock's table: what holds of its two words, its slot and all passes between any two steps of any threads.
use crate::knowledge::View;
use crate::state::Turns;
use atomic_table::TableRule;
use std::marker::PhantomData;

/// The parameters of a lock.
#[derive(Drop)]
pub struct Setup {
    pub start: u64,
    pub callers: u64,
}

pub struct InTurn<T> {
    marker: PhantomData<T>,
}

impl<T: Turns> TableRule<Option<T>, View<T::Entry>, Setup> for InTurn<T> {
    ghost use Rattle.turn_lock.specs.Rule.{TurnRule, newcomer};

    ghost holds = { λ key. TurnRule T.history T.whose key.start key.callers };

    ghost first = { λ key. newcomer key.callers };
}
