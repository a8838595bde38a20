//! The input of a leaf. Its digest is computed with it, since the lane, the shard and the memo all need it.
ghost use Rattle.std.specs.Prelude.{◌≡◌, ◌↔◌, ◌∷◌, IsTrue, IfOk};
ghost use Rattle.definitions.specs.Records.{text_of};
ghost use Rattle.sha2.specs.Sha256.{sha256};
ghost use Rattle.map_tasks.specs.Inputs.{input_digest};

use record_text::{Bundle, Records};
use sha2::{Digest, Sha256};
use std::alloc::AllocError;
use std::marker::Model;

/// The digest of a leaf with these records: SHA-256 (FIPS 180-4) of the byte 0 and their text.
pub(crate) fn digest_of(records: &Records) -> [u8; 32]
    ensures { result ≡ input_digest records.now }
{
    let mut hasher = Sha256::new();
    hasher.update([0u8].as_slice());
    hasher.update(records.text());
    hasher.finalize()
}

/// The records of a leaf, the number of parts into which they are mapped, and the number that the job is set to.
#[derive(Drop)]
pub struct LeafInput {
    bundle: Bundle,
    parts: u32,
    setting: u32,
    digest: [u8; 32],
}

impl Model for LeafInput {
    ghost use Rattle.std.specs.Prelude.{◌≡◌};
    ghost use Rattle.map_tasks.specs.Inputs.{InputView, input_digest};

    ghost Value = { InputView };

    ghost view = { λ i. record { text = i.bundle; parts = i.parts; setting = i.setting } };

    ghost invariant = { λ i. i.digest ≡ input_digest i.bundle };
}

impl LeafInput {
    /// The input of these records, which are hashed here and never again.
    pub fn new(bundle: Bundle, parts: u32, setting: u32) -> LeafInput
        ensures { result ≡ record { text = bundle; parts = parts; setting = setting } }
    {
        let digest = digest_of(bundle.records());
        LeafInput {
            bundle,
            parts,
            setting,
            digest,
        }
    }

    /// The records.
    pub fn bundle(&self) -> &Bundle
        ensures { result.now ≡ self.now.text }
    {
        &self.bundle
    }

    /// Into how many parts they are mapped.
    pub fn parts(&self) -> u32
        ensures { result ≡ self.now.parts }
    {
        self.parts
    }

    /// The number that the job is set to.
    pub fn setting(&self) -> u32
        ensures { result ≡ self.now.setting }
    {
        self.setting
    }

    /// The digest: SHA-256 (FIPS 180-4) of the byte 0 and the text of the records. It was computed with the input. It
    /// serves to place an input and to look it up; equal digests never make two inputs equal.
    pub fn digest(&self) -> [u8; 32]
        ensures { result ≡ input_digest self.now.text }
    {
        self.digest
    }

    /// Whether two inputs are equal. Texts are compared if everything else is equal, including their digests.
    pub fn same(&self, other: &LeafInput) -> bool
        ensures { IsTrue result ↔ (self.now ≡ other.now) }
    {
        self.parts == other.parts
            && self.setting == other.setting
            && self.digest == other.digest
            && self.bundle.records().same(other.bundle.records())
    }

    /// An equal input. The records are not copied; it fails only if the count of owners is full.
    pub fn share(&self) -> Result<LeafInput, AllocError>
        ensures { IfOk result (λ i. i ≡ self.now) }
    {
        Ok(LeafInput {
            bundle: self.bundle.share()?,
            parts: self.parts,
            setting: self.setting,
            digest: self.digest,
        })
    }
}
