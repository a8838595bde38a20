//! The rule of the board's table: what holds of its word, its slots and all hands between any two steps of any threads.
ghost use Rattle.worker_claims.specs.Rule.{ClaimRule, newcomer};

use crate::knowledge::View;
use atomic_table::TableRule;
use std::marker::PhantomData;
use std::snapshot::Snapshot;

/// The parameters of a board: the tasks, as a fact for proofs, and the number of hands.
#[derive(Drop)]
pub struct Setup<T> {
    pub tasks: Snapshot<Vec<T>>,
    pub hands: u64,
}

/// The rule between any two steps, `ClaimRule` of `specs/Rule.antt`.
pub struct Claims<T> {
    marker: PhantomData<T>,
}

impl<T> TableRule<Option<T>, View<T>, Setup<T>> for Claims<T> {
    ghost holds = { λ key. ClaimRule key.tasks.value.items key.hands };

    ghost first = { λ key. newcomer key.tasks.value.items key.hands };
}
