//! The pairs that mapping emits, without an allocation for each.
ghost use Rattle.std.specs.Prelude.{◌≡◌, ◌<◌, [], ◌∷◌, ◌++◌, OnOk, OnErr, Some, length, slice_get, take};
ghost use Rattle.definitions.specs.Tables.{IsKey};

use std::alloc::{AllocError, Global};
use std::marker::Model;

/// A value, and the place of its key's bytes.
#[derive(Drop)]
struct Placed<V> {
    from: usize,
    to: usize,
    val: V,
}

/// Pairs of a key and a value, in the order in which they were put, modelled as that list. The keys' bytes are held in
/// one buffer, so that a pair costs no allocation.
#[derive(Drop)]
pub struct Emit<V> {
    bytes: Vec<u8>,
    places: Vec<Placed<V>>,
}

impl<V> Model for Emit<V> {
    ghost use Rattle.std.specs.Prelude.{List, ℕ};
    ghost use Rattle.job_laws.specs.Placed.{placed_pairs, ArePlaced};

    ghost Value = { List (List ℕ × V) };

    ghost view = { λ e. placed_pairs e.bytes.items e.places.items };

    ghost invariant = { λ e. ArePlaced e.bytes.items e.places.items };
}

impl<V: Drop> Emit<V> {
    /// No pairs. It takes no memory.
    pub fn new(alloc: Global) -> Emit<V>
        ensures { result ≡ [] }
    {
        Emit {
            bytes: Vec::new(alloc),
            places: Vec::new(alloc),
        }
    }

    /// Adds a pair at the end. The key has 1 to 65,535 bytes, which are copied. Out of memory, nothing is added.
    pub fn put(&mut self, key: &[u8], val: V) -> Result<(), AllocError>
        requires { IsKey key.now }
        ensures ok { OnOk result (self.new ≡ self.old ++ (key.now, val) ∷ []) }
        ensures err { OnErr result (self.new ≡ self.old) }
    {
        let from = self.bytes.len();
        self.places.reserve(1)?;
        self.bytes.extend_from_slice(key)?;
        self.places.push_reserved(Placed {
            from,
            to: from + key.len(),
            val,
        });
        Ok(())
    }

    /// How many pairs there are.
    pub fn len(&self) -> usize
        ensures { result ≡ length self.now }
    {
        self.places.len()
    }

    /// The key and the value of a pair, by its place.
    pub fn pair(&self, i: usize) -> (&[u8], &V)
        requires { i < length self.now }
        ensures value { slice_get self.now i ≡ Some (result.0.now, result.1.now) }
        ensures key { IsKey result.0.now }
    {
        let place = &self.places[i];
        (&self.bytes[place.from..place.to], &place.val)
    }

    /// Keeps the first `n` pairs.
    pub fn truncate(&mut self, n: usize)
        ensures { self.new ≡ take n self.old }
    {
        self.places.truncate(n);
    }
}
