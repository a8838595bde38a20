//! The board and its hands, as they are in memory.
use crate::knowledge::View;
use crate::rule::{Claims, Setup};
use crate::spare::Spare;
use atomic_table::{Seat, Table};
use std::alloc::Global;
use std::marker::Model;

/// A board of tasks. It is modelled by its name, the tasks as they were handed in, and how many hands it has.
#[derive(Drop)]
pub struct Board<T> {
    // The tasks are in the table's slots.
    pub(crate) table: Table<Option<T>, View<T>, Setup<T>, Claims<T>, Global>,
    // The row in which they came and to which they return: empty, with room for them.
    pub(crate) spare: Spare<T>,
    pub(crate) count: u64,
}

impl<T> Model for Board<T> {
    ghost use Rattle.std.specs.Prelude.{◌≡◌, ◌≤◌, ◌<◌, ◌^◌, length};
    ghost use Rattle.worker_claims.specs.Views.{BoardView};

    ghost Value = { BoardView T };

    ghost view = { λ b. record { id = b.table.shared.table_id; tasks = b.table.shared.key.tasks.value.items; hands = b.table.shared.key.hands } };

    ghost invariant = { λ b. (b.table.shared.table_id.words ≡ 1) × (b.table.shared.table_id.slots ≡ b.count) × (b.count ≤ b.spare) × (length b.table.shared.key.tasks.value.items ≡ b.count) × (b.count < 2 ^ 32) × (0 < b.table.shared.key.hands) };
}

/// The right to claim tasks of one board. It is modelled by the board's name and tasks, what it is doing, and what it
/// gave.
#[derive(Drop)]
pub struct Hand<T> {
    pub(crate) seat: Seat<Option<T>, View<T>>,
    // It has found no task left.
    pub(crate) done: bool,
}

impl<T> Model for Hand<T> {
    ghost use Rattle.std.specs.Prelude.{◌≡◌};
    ghost use Rattle.worker_claims.specs.Views.{HandView};
    ghost use Rattle.worker_claims.specs.Rule.{Carries};

    ghost Value = { HandView T };

    ghost view = { λ h. record { board = h.seat.table_id; tasks = h.seat.me.0.tasks; doing = h.seat.me.0.doing; given = h.seat.me.0.given } };

    ghost invariant = { λ h. (h.seat.me.0.parts ≡ 1) × Carries h.seat.me.0.tasks h.seat.me.0.doing h.done h.seat.me.1 };
}
