//! The lock, its passes and its refusal, as they are in memory.
use crate::knowledge::View;
use crate::rule::{InTurn, Setup};
use crate::state::Turns;
use atomic_table::{Seat, Table};
use std::alloc::Global;
use std::marker::Model;

/// A lock over a state. It is modelled by its name, its first ticket and how many passes it has.
#[derive(Drop)]
pub struct TurnLock<T: Turns> {
    pub(crate) table: Table<Option<T>, View<T::Entry>, Setup, InTurn<T>, Global>,
}

impl<T: Turns> Model for TurnLock<T> {
    ghost use Rattle.std.specs.Prelude.{◌≡◌, ◌<◌};
    ghost use Rattle.turn_lock.specs.Views.{LockView};

    ghost Value = { LockView };

    ghost view = { λ l. record { id = l.table.shared.table_id; start = l.table.shared.key.start; callers = l.table.shared.key.callers } };

    ghost invariant = { λ l. (l.table.shared.table_id.words ≡ 2) × (l.table.shared.table_id.slots ≡ 1) × (0 < l.table.shared.key.callers) };
}

/// The right to take turns at one lock. It is modelled by the lock's name and what its holder knows.
#[derive(Drop)]
pub struct Pass<T: Turns> {
    pub(crate) number: u64,
    pub(crate) seat: Seat<Option<T>, View<T::Entry>>,
}

impl<T: Turns> Model for Pass<T> {
    ghost use Rattle.std.specs.Prelude.{◌≡◌, []};
    ghost use Rattle.turn_lock.specs.declared.knowledge.Stage.TheVariants.{Idle};
    ghost use Rattle.turn_lock.specs.Views.{PassView};

    ghost Value = { PassView T.Entry };

    ghost view = { λ p. record { lock = p.seat.table_id; known = p.seat.me.0.own } };

    ghost invariant = { λ p. (p.seat.me.0.own.number ≡ p.number) × (p.seat.me.0.stage ≡ Idle) × (p.seat.me.1 ≡ []) × (p.seat.me.0.gives ≡ 0) × (p.seat.me.0.ended ≡ []) };
}

/// Why a turn was refused.
#[derive(Drop)]
pub enum Turned<O> {
    /// The next ticket was 2^62 or more. It carries that ticket, and what was asked, untouched.
    Worn { ticket: u64, op: O },
}
