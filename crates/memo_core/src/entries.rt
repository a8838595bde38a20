//! The live entries of a state, in the order of their ids. Walks over them find, pin, release and sweep.
ghost use Rattle.std.specs.Prelude.{◌≡◌, ◌++◌, ◌∷◌, [], ◌<◌, ◌==◌, ◌↔◌, OnOk, OnErr, IfOk, IsTrue, Some, length, slice_get, filter, not};
ghost use Rattle.std.specs.List.{list_any};

use crate::pins::Pins;
use std::alloc::{AllocError, Global};
use std::marker::Model;

/// A live entry, without its input and result.
#[derive(Drop)]
pub struct CoreEntry {
    /// The number of the entry, which no other entry ever has.
    pub id: u64,
    /// The digest of its input.
    pub digest: [u8; 32],
    /// The greatest run in which it was stored, hit or found.
    pub used: u64,
    /// The callers that hold it.
    pub pins: Pins,
}

impl CoreEntry {
    ghost use Rattle.memo_core.specs.Machine.{pinned, released, is_swept};

    // Whether a sweep at the horizon takes the entry: it has no pins and was last used below the horizon.
    pub(crate) fn is_stale(&self, horizon: u64) -> bool
        ensures { result ≡ is_swept horizon self.now }
    {
        self.pins.len() == 0 && self.used < horizon
    }

    // Adds a pin of the caller, in this run.
    pub(crate) fn pin(&mut self, caller: u64, run: u64) -> Result<(), AllocError>
        ensures { OnOk result (self.new ≡ pinned caller run self.old) }
    {
        self.pins.push(caller)?;
        self.used = self.used.max(run);
        Ok(())
    }

    // Removes the caller's first pin.
    pub(crate) fn release(&mut self, caller: u64)
        ensures { self.new ≡ released caller self.old }
    {
        self.pins.release(caller);
    }
}

/// Live entries in the order of making.
#[derive(Drop)]
pub struct Entries {
    list: Vec<CoreEntry>,
}

impl Model for Entries {
    ghost use Rattle.std.specs.Prelude.{List};
    ghost use Rattle.memo_core.specs.declared.entries.CoreEntry.{CoreEntry};

    ghost Value = { List CoreEntry };

    ghost view = { λ es. es.list.items };
}

impl Entries {
    ghost use Rattle.memo_core.specs.Machine.{at_id, pinned, released, has_digest, names, has_pin, is_swept};

    /// No entries.
    pub fn new(alloc: Global) -> Entries
        ensures { result ≡ [] }
    {
        Entries {
            list: Vec::new(alloc),
        }
    }

    /// How many entries are live.
    pub fn len(&self) -> usize
        ensures { result ≡ length self.now }
    {
        self.list.len()
    }

    /// Whether no entry is live.
    pub fn is_empty(&self) -> bool
        ensures { IsTrue result ↔ (length self.now ≡ 0) }
    {
        self.list.is_empty()
    }

    /// The entry at a place.
    pub fn get(&self, i: usize) -> &CoreEntry
        requires { i < length self.now }
        ensures { slice_get self.now i ≡ Some result.now }
    {
        &self.list[i]
    }

    // Whether a live entry has the digest.
    pub(crate) fn has_digest(&self, digest: &[u8; 32]) -> bool
        ensures { result ≡ has_digest digest.now self.now }
    {
        self.list.iter().any(|entry| entry.digest == *digest)
    }

    // Whether the live entry of the id has the digest.
    pub(crate) fn names(&self, id: u64, digest: &[u8; 32]) -> bool
        ensures { result ≡ list_any (names id digest.now) self.now }
    {
        self.list
            .iter()
            .any(|entry| entry.id == id && entry.digest == *digest)
    }

    // Whether the caller has a pin on the live entry of the id.
    pub(crate) fn has_pin(&self, caller: u64, id: u64) -> bool
        ensures { result ≡ list_any (has_pin caller id) self.now }
    {
        self.list
            .iter()
            .any(|entry| entry.id == id && entry.pins.contains(caller))
    }

    // Adds an entry at the end.
    pub(crate) fn push(&mut self, entry: CoreEntry) -> Result<(), AllocError>
        ensures { OnOk result (self.new ≡ self.old ++ entry ∷ []) }
    {
        self.list.push(entry)?;
        Ok(())
    }

    // Adds a pin of the caller on the entry of the id, in this run.
    pub(crate) fn pin(&mut self, id: u64, caller: u64, run: u64) -> Result<(), AllocError>
        ensures { OnOk result (self.new ≡ at_id id (pinned caller run) self.old) }
    {
        'entries: for entry in self.list.iter_mut() {
            if entry.id == id {
                entry.pin(caller, run)?;
            }
        }
        Ok(())
    }

    // Removes the caller's first pin on the entry of the id.
    pub(crate) fn release(&mut self, id: u64, caller: u64)
        ensures { self.new ≡ at_id id (released caller) self.old }
    {
        'entries: for entry in self.list.iter_mut() {
            if entry.id == id {
                entry.release(caller);
            }
        }
    }

    // How many entries without pins were last used below the horizon.
    pub(crate) fn stale(&self, horizon: u64) -> usize
        ensures { result ≡ length (filter (is_swept horizon) self.now) }
    {
        self.list
            .iter()
            .filter(|entry| entry.is_stale(horizon))
            .count()
    }

    // Drops the entries without pins that were last used below the horizon; the others keep their order.
    pub(crate) fn sweep(&mut self, horizon: u64)
        ensures { self.new ≡ filter (λ e. not (is_swept horizon e)) self.old }
    {
        self.list.retain(|entry| !entry.is_stale(horizon));
    }
}
