//! A rolling hash, which hashes all windows of a record in one pass over it.
ghost use Rattle.std.specs.Prelude.{◌≡◌, ◌+◌, ◌*◌, ◌%◌, ◌^◌, ◌++◌, ◌∷◌, []};
ghost use Rattle.marker_chunker.specs.Markers.{window_hash, last_bytes, marks};

use std::marker::Model;

// The hash of a window that gains the byte `b` and loses `out`. The last factor subtracts the power that `out` had,
// modulo 2^32.
fn rolled(hash: u32, out: u8, b: u8) -> u32
    ensures { result ≡ (hash * 16777619 + b + out * 3416554943) % 2 ^ 32 }
{
    let sum = hash as u64 * 16777619 + b as u64 + out as u64 * 3416554943;
    (sum & 0xffff_ffff) as u32
}

/// The hash of the last 16 bytes pushed, or of all if there are fewer, modelled as the list of these bytes. It is the
/// rolling polynomial hash of Karp and Rabin, at 16,777,619 and modulo 2^32. A push takes constant time.
#[derive(Drop)]
pub struct Roll {
    bytes: [u8; 16],
    head: usize,
    len: usize,
    hash: u32,
}

impl Model for Roll {
    ghost use Rattle.std.specs.Prelude.{◌≡◌, ◌<◌, ◌≤◌, List, ℕ, take, drop, ◌++◌};
    ghost use Rattle.marker_chunker.specs.Markers.{window_hash};

    ghost Value = { List ℕ };

    ghost view = { λ r. take r.len (drop r.head r.bytes ++ take r.head r.bytes) };

    ghost invariant = { λ r. (r.head < 16) × (r.len ≤ 16) × (r.len < 16 → r.head ≡ 0) × (r.hash ≡ window_hash (take r.len (drop r.head r.bytes ++ take r.head r.bytes))) };
}

impl Roll {
    /// No bytes yet.
    pub fn new() -> Roll
        ensures { result ≡ [] }
    {
        Roll {
            bytes: [0; 16],
            head: 0,
            len: 0,
            hash: 0,
        }
    }

    /// The hash of the bytes.
    pub fn hash(&self) -> u32
        ensures { result ≡ window_hash self.now }
    {
        self.hash
    }

    /// Whether the hash makes a record with this window a marker.
    pub fn marks(&self) -> bool
        ensures { result ≡ marks self.now }
    {
        self.hash() % 4096 == 4095
    }

    /// Adds a byte; if there are 16 already, the first leaves.
    pub fn push(&mut self, b: u8)
        ensures { self.new ≡ last_bytes (self.old ++ b ∷ []) }
    {
        if self.len < 16 {
            self.hash = rolled(self.hash, 0, b);
            self.bytes[self.len] = b;
            self.len += 1;
            return;
        }
        let head = self.head;
        self.hash = rolled(self.hash, self.bytes[head], b);
        self.bytes[head] = b;
        self.head = if head == 15 { 0 } else { head + 1 };
    }
}
