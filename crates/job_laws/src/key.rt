//! Keys, which tables share.
ghost use Rattle.std.specs.Prelude.{◌≡◌, ◌≤◌, length, IfOk};
ghost use Rattle.definitions.specs.Tables.{IsKey, key_cmp};

use std::alloc::{AllocError, Global};
use std::cmp::Ordering;
use std::marker::Model;
use std::sync::ArcSlice;

/// A key: 1 to 65,535 bytes, ordered bytewise, modelled as these bytes. They are shared and never change.
#[derive(Drop)]
pub struct Key {
    bytes: ArcSlice<u8>,
}

impl Model for Key {
    ghost use Rattle.std.specs.Prelude.{List, ℕ};
    ghost use Rattle.std.specs.Arc.{arc_slice_items};
    ghost use Rattle.definitions.specs.Tables.{IsKey};

    ghost Value = { List ℕ };

    ghost view = { λ k. arc_slice_items k.bytes };

    ghost invariant = { λ k. IsKey (arc_slice_items k.bytes) };
}

impl Key {
    /// The key of these 1 to 65,535 bytes, which are copied.
    pub fn of(alloc: Global, bytes: &[u8]) -> Result<Key, AllocError>
        requires { IsKey bytes.now }
        ensures { IfOk result (λ key. key ≡ bytes.now) }
    {
        let bytes = ArcSlice::from_slice(alloc, bytes)?;
        Ok(Key { bytes })
    }

    /// The bytes.
    pub fn bytes(&self) -> &[u8]
        ensures value { result.now ≡ self.now }
        ensures fits { IsKey self.now }
    {
        self.bytes.as_slice()
    }

    /// Another owner of the same key. No byte is copied; it fails only if the count of owners is full.
    pub fn share(&self) -> Result<Key, AllocError>
        ensures { IfOk result (λ key. key ≡ self.now) }
    {
        let bytes = self.bytes.clone()?;
        Ok(Key { bytes })
    }

    /// The byte order of two keys.
    pub fn compare(&self, other: &Key) -> Ordering
        ensures { result ≡ key_cmp self.now other.now }
    {
        self.bytes.as_slice().cmp(&other.bytes.as_slice())
    }
}
