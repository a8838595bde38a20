//! A table as bytes, entry by entry, and their hash.
ghost use Rattle.std.specs.Prelude.{◌≡◌, ◌++◌, ℕ, List, IfOk, OnOk};
ghost use Rattle.sheets.specs.Digests.{HoldsBut, entry_bytes, table_bytes, table_digest};

use job_laws::{Job, Key, be64_bytes};
use sha2::{Digest, Sha256};
use std::alloc::{AllocError, Global};

/// How many bytes of a table are gathered before they are hashed. A piece fits into a processor's cache.
const PIECE: usize = 32_768;

/// The digest of a table: SHA-256 (FIPS 180-4) of its entries as bytes. They are hashed piece by piece, so it takes at
/// most the memory of two pieces, or of the longest entry.
pub(crate) fn digest_of<J: Job>(
    alloc: Global,
    entries: &[(Key, J::Val)],
) -> Result<[u8; 32], AllocError>
    ensures { IfOk result (λ digest. digest ≡ table_digest J.encoded entries.now) }
{
    let mut hasher = Sha256::new();
    let mut val = Vec::new(alloc);
    let mut bytes = Vec::new(alloc);
    bytes.reserve(entries.len().min(PIECE / 32) * 64)?;
    let mut rest = entries;
    'entries: while let [e, more @ ..] = rest {
        encode_entry::<J>(e, &mut val, &mut bytes)?;
        hash_full(&mut hasher, &mut bytes);
        rest = more;
    }
    hasher.update(bytes.as_slice());
    Ok(hasher.finalize())
}

// Hashes the bytes if they are a piece or more.
fn hash_full(hasher: &mut Sha256, bytes: &mut Vec<u8>)
    ensures { (m : List ℕ) → HoldsBut hasher.old bytes.old.items m → HoldsBut hasher.new bytes.new.items m }
{
    if bytes.len() >= PIECE {
        hasher.update(bytes.as_slice());
        bytes.clear();
    }
}

// `val` is room for the value's encoding, whose length comes before it.
fn encode_entry<J: Job>(
    e: &(Key, J::Val),
    val: &mut Vec<u8>,
    out: &mut Vec<u8>,
) -> Result<(), AllocError>
    ensures { OnOk result (out.new.items ≡ out.old.items ++ entry_bytes J.encoded e.now) }
{
    val.clear();
    J::encode(&e.1, val)?;
    let key = e.0.bytes();
    out.extend_from_slice(&be64_bytes(key.len() as u64))?;
    out.extend_from_slice(key)?;
    out.extend_from_slice(&be64_bytes(val.len() as u64))?;
    out.extend_from_slice(val.as_slice())?;
    Ok(())
}
