//! A chunk is a shared run of records, so that an edit moves those that it does not cut again, without a copy.
ghost use Rattle.std.specs.Prelude.{◌≡◌, ◌≤◌, length, IfOk};
ghost use Rattle.definitions.specs.Records.{text_of};

use record_text::{Bundle, Records};
use std::alloc::{AllocError, Global};
use std::marker::Model;

/// A shared chunk, modelled as its records. Its counts are kept outside the shared part, so that a walk over chunks
/// opens none of them.
#[derive(Drop)]
pub struct Chunk {
    bundle: Bundle,
    count: usize,
    size: u64,
}

impl Model for Chunk {
    ghost use Rattle.std.specs.Prelude.{◌≡◌, ◌≤◌, ℕ, List, length};
    ghost use Rattle.definitions.specs.Records.{text_of};

    ghost Value = { List (List ℕ) };

    ghost view = { λ c. c.bundle };

    ghost invariant = { λ c. (c.count ≡ length c.bundle) × (c.count ≤ 4294967295) × (c.size ≡ length (text_of c.bundle)) };
}

impl Chunk {
    /// The chunk of these records, which are not copied.
    pub fn of(alloc: Global, records: Records) -> Result<Chunk, AllocError>
        ensures { IfOk result (λ c. c ≡ records) }
    {
        let count = records.len();
        let size = records.text_len();
        let bundle = Bundle::of(alloc, records)?;
        Ok(Chunk {
            bundle,
            count,
            size,
        })
    }

    /// The records, for sharing.
    pub fn bundle(&self) -> &Bundle
        ensures { result.now ≡ self.now }
    {
        &self.bundle
    }

    /// How many records it has.
    pub fn len(&self) -> usize
        ensures count { result ≡ length self.now }
        ensures most { result ≤ 4294967295 }
    {
        self.count
    }

    /// How many bytes its text has.
    pub fn text_len(&self) -> u64
        ensures { result ≡ length (text_of self.now) }
    {
        self.size
    }
}
