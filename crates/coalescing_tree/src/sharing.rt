//! The leaves of a tree are sheets that others hold too.
ghost use Rattle.std.specs.Prelude.{◌≡◌, ◌++◌, ◌∷◌, [], All, OnOk, OnErr};
ghost use Rattle.tree_laws.specs.Trees.{IsLeaf};

use job_laws::Job;
use sheets::Sheet;
use std::alloc::AllocError;

/// Appends shares of all fresh sheets to the leaves, or none.
pub(crate) fn share_all<J: Job>(
    leaves: &mut Vec<Sheet<J>>,
    fresh: &[Sheet<J>],
) -> Result<(), AllocError>
    ensures ok { OnOk result (leaves.new.items ≡ leaves.old.items ++ fresh.now) }
    ensures sound { OnOk result (All (λ s. IsLeaf J.good s.setting s) fresh.now) }
    ensures err { OnErr result (leaves.new.items ≡ leaves.old.items) }
{
    let count = leaves.len();
    'fresh: for i in 0..fresh.len() {
        match share_one(leaves, &fresh[i]) {
            Ok(()) => (),
            Err(e) => {
                leaves.truncate(count);
                return Err(e);
            }
        }
    }
    Ok(())
}

fn share_one<J: Job>(leaves: &mut Vec<Sheet<J>>, sheet: &Sheet<J>) -> Result<(), AllocError>
    ensures ok { OnOk result (leaves.new.items ≡ leaves.old.items ++ sheet.now ∷ []) }
    ensures sound { OnOk result (IsLeaf J.good sheet.now.setting sheet.now) }
    ensures err { OnErr result (leaves.new.items ≡ leaves.old.items) }
{
    leaves.push(sheet.share()?)?;
    Ok(())
}
