//! Bytes that tables share.
ghost use Rattle.std.specs.Prelude.{◌≡◌, ◌≤◌, length, IfOk};
ghost use Rattle.definitions.specs.Limits.{most_record};

use std::alloc::{AllocError, Global};
use std::marker::Model;
use std::sync::ArcSlice;

/// At most 65,535 bytes, possibly none. They are shared and never change.
#[derive(Drop)]
pub struct Bytes {
    bytes: ArcSlice<u8>,
}

impl Model for Bytes {
    ghost use Rattle.std.specs.Prelude.{List, ℕ, ◌≤◌, length};
    ghost use Rattle.std.specs.Arc.{arc_slice_items};
    ghost use Rattle.definitions.specs.Limits.{most_record};

    ghost Value = { List ℕ };

    ghost view = { λ b. arc_slice_items b.bytes };

    ghost invariant = { λ b. length (arc_slice_items b.bytes) ≤ most_record };
}

impl Bytes {
    /// These bytes, which are copied.
    pub fn of(alloc: Global, bytes: &[u8]) -> Result<Bytes, AllocError>
        requires { length bytes.now ≤ most_record }
        ensures { IfOk result (λ b. b ≡ bytes.now) }
    {
        let bytes = ArcSlice::from_slice(alloc, bytes)?;
        Ok(Bytes { bytes })
    }

    /// The bytes.
    pub fn bytes(&self) -> &[u8]
        ensures value { result.now ≡ self.now }
        ensures fits { length self.now ≤ most_record }
    {
        self.bytes.as_slice()
    }

    /// Another owner of the same bytes. None is copied; it fails only if the count of owners is full.
    pub fn share(&self) -> Result<Bytes, AllocError>
        ensures { IfOk result (λ b. b ≡ self.now) }
    {
        let bytes = self.bytes.clone()?;
        Ok(Bytes { bytes })
    }
}
