//! The live entries of a shard, found by digest in a map and by id in a binary search, since they are in the order of
//! their ids.
ghost use Rattle.std.specs.Prelude.{◌≡◌, ℕ, ◌<◌, ◌+◌, ◌++◌, ◌∷◌, [], List, OnOk, OnErr, IfOk, Some, None, length, slice_get, filter, not};
ghost use Rattle.std.specs.List.{list_any};

use crate::live::Live;
use crate::recipe::Recipe;
use crate::shared_entry::SharedEntry;
use indexmap::IndexMap;
use std::alloc::{AllocError, Global};
use std::marker::Model;

/// Live entries by digest, in the order of making, so that their ids rise with their places.
#[derive(Drop)]
pub struct LiveEntries<R: Recipe> {
    map: IndexMap<[u8; 32], Live<R>>,
}

impl<R: Recipe> Model for LiveEntries<R> {
    ghost use Rattle.std.specs.Prelude.{List, ℕ};
    ghost use Rattle.memo_server.specs.Views.{LiveView};

    ghost Value = { List (List ℕ × LiveView R.In R.Out) };

    ghost view = { λ es. es.map.entries };
}

impl<R: Recipe> LiveEntries<R> {
    ghost use Rattle.memo_server.specs.Views.{LiveView, Finds, entry_of, found, HasRisingIds, pinned_view, released_view, update_at, has_pin_view, is_stale};

    /// No entries.
    pub fn new(alloc: Global) -> LiveEntries<R>
        ensures { result ≡ [] }
    {
        LiveEntries {
            map: IndexMap::new(alloc),
        }
    }

    /// How many entries are live.
    pub fn len(&self) -> usize
        ensures { result ≡ length self.now }
    {
        self.map.len()
    }

    /// Whether the caller has a pin on the entry of the id. One walk over the entries.
    pub fn has_pin(&self, caller: u64, id: u64) -> bool
        ensures { result ≡ list_any (λ e. has_pin_view caller id e.1) self.now }
    {
        self.map.iter().any(|(_, entry)| entry.has_pin(caller, id))
    }

    /// The place of the entry with the digest.
    pub fn find(&self, digest: &[u8; 32]) -> Option<usize>
        ensures { Finds digest.now self.now result }
    {
        let (place, _, _) = self.map.get_full(digest)?;
        Some(place)
    }

    /// The entry at the place, shared.
    pub fn share(&self, place: usize) -> Result<SharedEntry<R>, AllocError>
        requires { place < length self.now }
        ensures same { IfOk result (λ s. (k : List ℕ) × (l : LiveView R.In R.Out) × (slice_get self.now place ≡ Some (k, l)) × (s ≡ entry_of l)) }
        ensures fits { IfOk result (λ s. R.fits s.input s.out) }
    {
        match self.map.get_index(place) {
            Some((_, entry)) => entry.shared.share(),
            None => unreachable!(),
        }
    }

    /// Adds a pin of the caller on the entry at the place, in this run. Out of memory, nothing changes.
    pub fn pin(&mut self, place: usize, caller: u64, run: u64) -> Result<(), AllocError>
        requires { place < length self.old }
        ensures ok { OnOk result (self.new ≡ update_at place (pinned_view caller run) self.old) }
        ensures err { OnErr result (self.new ≡ self.old) }
    {
        let (_, entry) = self.map.pair_mut(place);
        entry.pin(caller, run)
    }

    /// Removes the caller's first pin on the entry at the place.
    pub fn release(&mut self, place: usize, caller: u64)
        requires { place < length self.old }
        ensures { self.new ≡ update_at place (released_view caller) self.old }
    {
        let (_, entry) = self.map.pair_mut(place);
        entry.release(caller);
    }

    /// Adds an entry at the end. Out of memory, nothing changes.
    pub fn push(&mut self, digest: [u8; 32], entry: Live<R>) -> Result<(), AllocError>
        requires { found digest self.old ≡ None }
        ensures ok { OnOk result (self.new ≡ self.old ++ (digest, entry) ∷ []) }
        ensures err { OnErr result (self.new ≡ self.old) }
    {
        match self.map.insert(digest, entry) {
            Ok(_) => Ok(()),
            Err(_) => Err(AllocError),
        }
    }

    /// Removes the last entry.
    pub fn pop(&mut self)
        ensures { (es : List (List ℕ × LiveView R.In R.Out)) (e : List ℕ × LiveView R.In R.Out) → self.old ≡ es ++ e ∷ [] → self.new ≡ es }
    {
        self.map.pop();
    }

    /// Drops the entries that are stale at the horizon; the others keep their order.
    pub fn sweep(&mut self, horizon: u64)
        ensures { self.new ≡ filter (λ e. not (is_stale horizon e.1)) self.old }
    {
        self.map.retain(|_, entry| !entry.is_stale(horizon));
    }

    /// The place of the entry of the id, by a binary search.
    pub fn place_of(&self, id: u64) -> usize
        requires rising { HasRisingIds self.now }
        requires live { (i : ℕ) × (k : List ℕ) × (l : LiveView R.In R.Out) × (slice_get self.now i ≡ Some (k, l)) × (l.id ≡ id) }
        ensures { (k : List ℕ) × (l : LiveView R.In R.Out) × (slice_get self.now result ≡ Some (k, l)) × (l.id ≡ id) }
    {
        match self.map.binary_search_by_key(&id, |_, entry| entry.id()) {
            Ok(place) => place,
            Err(_) => unreachable!(),
        }
    }
}
