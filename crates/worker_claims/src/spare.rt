//! An empty row that threads can hold together, although they cannot share its elements.
ghost use Rattle.std.specs.Prelude.{◌≡◌, ◌≤◌, [], vec_capacity, IfOk, IfErr};

use atomic_table::{Refused, Table, TableRule};
use std::alloc::Global;
use std::marker::{Model, PhantomData};

/// The rule of its table: the one slot has the row.
pub(crate) struct Empty<T> {
    marker: PhantomData<T>,
}

impl<T> TableRule<Vec<T>, (), u64> for Empty<T> {
    ghost use Rattle.worker_claims.specs.Spare.{KeepsRow};

    ghost holds = { KeepsRow };

    ghost first = { λ _. tt };
}

/// A row without elements. It is modelled by the number that it has room for.
#[derive(Drop)]
pub(crate) struct Spare<T> {
    table: Table<Vec<T>, (), u64, Empty<T>, Global>,
}

impl<T> Model for Spare<T> {
    ghost use Rattle.std.specs.Prelude.{◌≡◌, ℕ};

    ghost Value = { ℕ };

    ghost view = { λ s. s.table.shared.key };

    ghost invariant = { λ s. s.table.shared.table_id.slots ≡ 1 };
}

impl<T> Spare<T> {
    pub(crate) fn new(alloc: Global, row: Vec<T>, room: u64) -> Result<Spare<T>, Vec<T>>
        requires { (row.items ≡ []) × (room ≤ vec_capacity row) }
        ensures ok { IfOk result (λ s. s ≡ room) }
        ensures err { IfErr result (λ r. (r.items ≡ []) × (room ≤ vec_capacity r)) }
    {
        let Ok(mut slots) = Vec::with_capacity(alloc, 1) else {
            return Err(row);
        };
        slots.push_reserved(row);
        match Table::new(alloc, &[0], slots, &room) {
            Ok((table, _seat)) => Ok(Spare { table }),
            Err(Refused { mut slots }) => {
                let row = slots.pop().unwrap();
                slots.destroy_empty();
                Err(row)
            }
        }
    }

    pub(crate) fn take(self) -> Vec<T>
        ensures { (result.items ≡ []) × (self ≤ vec_capacity result) }
    {
        let Spare { table } = self;
        let mut closed = table.close();
        let row = closed.take(0);
        closed.free();
        row
    }
}
