//! How a memo looks up merges: pairs are compared by their whole tables, whatever their digests.
ghost use Rattle.std.specs.Prelude.{◌≡◌};

use crate::Pair;
use job_laws::Job;
use memo_server::Recipe;
use sha2::{Digest, Sha256};
use sheets::{Sheet, same_sheet};
use std::alloc::{AllocError, Global};
use std::marker::PhantomData;

/// The merges of a job's sheets, by the pairs that they merge. The digest of a pair is SHA-256 (FIPS 180-4) of a byte 1
/// and the digests of its two sheets, so no table is hashed again.
#[derive(Drop)]
pub struct MergeRecipe<J: Job> {
    job: PhantomData<J>,
}

impl<J: Job> Recipe for MergeRecipe<J> {
    ghost use Rattle.tree_laws.specs.Pairs.{IsMergeOf, pair_digest};

    type In = Pair<J>;

    type Out = Sheet<J>;

    ghost fits = { λ p s. IsMergeOf J.joined p s };

    ghost digest_of = { λ p. pair_digest J.encoded p };

    #[tactic(auto, unfolding(crate::specs::Pairs::pair_digest))]
    fn digest(input: &Pair<J>) -> [u8; 32] {
        let mut hasher = Sha256::new();
        hasher.update(&[1u8]);
        hasher.update(&input.left.digest());
        hasher.update(&input.right.digest());
        hasher.finalize()
    }

    fn same(a: &Pair<J>, b: &Pair<J>) -> bool {
        same_sheet(&a.left, &b.left) && same_sheet(&a.right, &b.right)
    }

    fn share_in(_alloc: Global, input: &Pair<J>) -> Result<Pair<J>, AllocError> {
        let left = input.left.share()?;
        let right = input.right.share()?;
        Ok(Pair { left, right })
    }

    fn share_out(_alloc: Global, out: &Sheet<J>) -> Result<Sheet<J>, AllocError> {
        out.share()
    }
}
