//! A live entry of a shard: its share of the entry, the last run that used it, and the callers that hold it.
ghost use Rattle.std.specs.Prelude.{◌≡◌, OnOk, OnErr};

use crate::recipe::Recipe;
use crate::shared_entry::SharedEntry;
use memo_core::Pins;
use std::alloc::AllocError;
use std::marker::Model;

/// A live entry: the shared entry, the last run that used it, and the callers that hold it.
#[derive(Drop)]
pub struct Live<R: Recipe> {
    pub shared: SharedEntry<R>,
    pub used: u64,
    pub pins: Pins,
}

impl<R: Recipe> Model for Live<R> {
    ghost use Rattle.memo_server.specs.Views.{LiveView};

    ghost Value = { LiveView R.In R.Out };

    ghost view = { λ l. record { id = l.shared.id; used = l.used; pins = l.pins; input = l.shared.input; out = l.shared.out } };
}

impl<R: Recipe> Live<R> {
    ghost use Rattle.memo_server.specs.Views.{LiveView, live_view, pinned_view, released_view, has_pin_view, is_stale};

    /// An entry that this run is the first to use.
    pub fn new(shared: SharedEntry<R>, run: u64, pins: Pins) -> Live<R>
        ensures { result ≡ live_view shared run pins }
    {
        Live {
            shared,
            used: run,
            pins,
        }
    }

    /// The number of the entry.
    pub fn id(&self) -> u64
        ensures { result ≡ self.now.id }
    {
        self.shared.id()
    }

    /// Adds a pin of the caller, in this run. Out of memory, nothing changes.
    pub fn pin(&mut self, caller: u64, run: u64) -> Result<(), AllocError>
        ensures ok { OnOk result (self.new ≡ pinned_view caller run self.old) }
        ensures err { OnErr result (self.new ≡ self.old) }
    {
        self.pins.push(caller)?;
        self.used = self.used.max(run);
        Ok(())
    }

    /// Removes the caller's first pin.
    pub fn release(&mut self, caller: u64)
        ensures { self.new ≡ released_view caller self.old }
    {
        self.pins.release(caller);
    }

    /// Whether it is the entry of the id and the caller has a pin on it.
    pub fn has_pin(&self, caller: u64, id: u64) -> bool
        ensures { result ≡ has_pin_view caller id self.now }
    {
        self.id() == id && self.pins.contains(caller)
    }

    /// Whether a sweep at the horizon takes the entry.
    pub fn is_stale(&self, horizon: u64) -> bool
        ensures { result ≡ is_stale horizon self.now }
    {
        self.pins.len() == 0 && self.used < horizon
    }
}
