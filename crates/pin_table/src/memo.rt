//! A memo, as it is in memory: its locks, each over a shard, and the number of its callers.
ghost use Rattle.std.specs.Prelude.{◌≡◌, ◌<◌, ◌≤◌, length};

use memo_server::{Recipe, Shard};
use std::alloc::Global;
use std::marker::Model;
use turn_lock::TurnLock;

/// A memo: shards, each behind a lock of its own. The holder of one of its callers may look up, keep, release and
/// sweep.
#[derive(Drop)]
pub struct Memo<R: Recipe> {
    pub(crate) alloc: Global,
    pub(crate) locks: Vec<TurnLock<Shard<R>>>,
    pub(crate) start: u64,
    pub(crate) callers: u32,
}

impl<R: Recipe> Model for Memo<R> {
    ghost use Rattle.std.specs.Prelude.{◌≡◌, ◌<◌, ◌≤◌, map, All, length};
    ghost use Rattle.pin_table.specs.Views.{MemoView};

    ghost Value = { MemoView };

    ghost view = { λ m. record { locks = map (λ l. l.id) m.locks.items; start = m.start; callers = m.callers } };

    ghost invariant = { λ m. All (λ l. (l.start ≡ m.start) × (l.callers ≡ m.callers)) m.locks.items × (0 < length m.locks.items) × (length m.locks.items ≤ 8) × (0 < m.callers) × (m.callers ≤ 64) };
}

impl<R: Recipe> Memo<R> {
    /// How many shards there are, 1 to 8.
    pub fn shards(&self) -> u32
        ensures count { result ≡ length self.now.locks }
        ensures some { (0 < result) × (result ≤ 8) }
    {
        self.locks.len() as u32
    }

    /// How many callers the memo was made with, 1 to 64. `close` takes them all.
    pub fn callers(&self) -> u32
        ensures count { result ≡ self.now.callers }
        ensures some { (0 < result) × (result ≤ 64) }
    {
        self.callers
    }

    /// The first ticket of each of its locks.
    pub fn start(&self) -> u64
        ensures { result ≡ self.now.start }
    {
        self.start
    }
}
