//! How a memo is closed: its callers give their passes back shard by shard, and each lock gives its shard back.
ghost use Rattle.std.specs.Prelude.{◌≡◌, ℕ, ◌+◌, ◌<◌, ◌≤◌, [], length, vec_len, vec_capacity, IfOk, IfErr, All, map};
ghost use Rattle.pin_table.specs.Ends.{Closes};
ghost use Rattle.pin_table.specs.Closing.{AllClose, Gives};

use crate::caller::Caller;
use crate::memo::Memo;
use memo_server::{Recipe, Shard};
use std::alloc::{AllocError, Global};
use turn_lock::{Pass, TurnLock};

impl<R: Recipe> Memo<R> {
    /// Gives the shards back, once every caller is given back.
    ///
    /// # Errors
    ///
    /// Out of memory. The memo and its callers come back unchanged.
    pub fn close(
        self,
        callers: Vec<Caller<R>>,
    ) -> Result<Vec<Shard<R>>, (AllocError, Memo<R>, Vec<Caller<R>>)>
        requires of { All (λ c. c.locks ≡ self.locks) callers.items }
        requires all { vec_len callers ≡ self.callers }
        ensures closed { IfOk result (λ shards. Closes self callers.items shards.items) }
        ensures back { IfErr result (λ e. (e.1 ≡ self) × (e.2.items ≡ callers.items)) }
    {
        let rows = match rows_for(self.alloc, self.locks.len(), callers.len()) {
            Ok(rows) => rows,
            Err(e) => return Err((e, self, callers)),
        };
        let shards = match Vec::with_capacity(self.alloc, self.locks.len()) {
            Ok(shards) => shards,
            Err(_) => return Err((AllocError, self, callers)),
        };
        let Memo {
            alloc: _,
            locks,
            start: _,
            callers: _,
        } = self;
        Ok(close_all(locks, callers, rows, shards))
    }
}

// Empty rows, one for each shard, each with room for a pass of each caller.
fn rows_for<R: Recipe>(
    alloc: Global,
    rows: usize,
    callers: usize,
) -> Result<Vec<Vec<Pass<Shard<R>>>>, AllocError>
    ensures { IfOk result (λ all. (vec_len all ≡ rows) × All (λ row. (row.items ≡ []) × (callers ≤ vec_capacity row)) all.items) }
{
    let mut all = Vec::with_capacity(alloc, rows)?;
    'rows: for _ in 0..rows {
        all.push_reserved(Vec::with_capacity(alloc, callers)?);
    }
    Ok(all)
}

// Closes the locks, the last one first, each with the callers' last passes. It takes no memory.
fn close_all<R: Recipe>(
    mut locks: Vec<TurnLock<Shard<R>>>,
    mut callers: Vec<Caller<R>>,
    mut rows: Vec<Vec<Pass<Shard<R>>>>,
    mut shards: Vec<Shard<R>>,
) -> Vec<Shard<R>>
    requires of { All (λ c. c.locks ≡ map (λ l. l.id) locks.items) callers.items }
    requires all { All (λ l. l.callers ≡ vec_len callers) locks.items }
    requires rows { (vec_len rows ≡ vec_len locks) × All (λ row. (row.items ≡ []) × (vec_len callers ≤ vec_capacity row)) rows.items }
    requires shards { (shards.items ≡ []) × (vec_len locks ≤ vec_capacity shards) }
    ensures { AllClose locks.items callers.items result.items }
{
    'locks: while let Some(lock) = locks.pop() {
        let Some(row) = rows.pop() else {
            unreachable!()
        };
        let shard = lock.close(gather(&mut callers, row));
        let _ = shard.history();
        match shards.insert(0, shard) {
            Ok(()) => {}
            Err(_) => unreachable!(),
        }
    }
    shards
}

// Moves each caller's last pass into the row.
fn gather<R: Recipe>(
    callers: &mut Vec<Caller<R>>,
    mut row: Vec<Pass<Shard<R>>>,
) -> Vec<Pass<Shard<R>>>
    requires row { (row.items ≡ []) × (vec_len callers.old ≤ vec_capacity row) }
    requires some { All (λ c. 0 < length c.locks) callers.old.items }
    ensures { Gives callers.old.items callers.new.items result.items }
{
    'places: for i in 0..callers.len() {
        row.push_reserved(callers[i].give());
    }
    row
}
