//! The leaves of a tree are sheets that others hold too; each is a group by itself on the lowest level.
ghost use Rattle.std.specs.Prelude.{◌≡◌, ◌++◌, ◌∷◌, [], length, take, map, All, OnOk, OnErr};
ghost use Rattle.tree_laws.specs.Trees.{IsLeaf};
ghost use Rattle.random_tree.specs.Steps.{AreLeaves, AddsLeaf};

use crate::group::Group;
use job_laws::Job;
use sheets::Sheet;
use std::alloc::{AllocError, Global};

/// Shares of the sheets, each as a group; out of memory, of some of them.
pub(crate) fn share_all<J: Job>(
    alloc: Global,
    leaves: &mut Vec<Group<J>>,
    sheets: &[Sheet<J>],
) -> Result<(), AllocError>
    requires none { leaves.old.items ≡ [] }
    ensures ok { OnOk result (AreLeaves sheets.now leaves.new.items) }
    ensures sound { OnOk result (All (λ s. IsLeaf J.good s.setting s) sheets.now) }
    ensures err { OnErr result (AreLeaves (take (length leaves.new.items) sheets.now) leaves.new.items) }
{
    'sheets: for i in 0..sheets.len() {
        match share_one(alloc, leaves, &sheets[i]) {
            Ok(()) => (),
            Err(e) => return Err(e),
        }
    }
    Ok(())
}

fn share_one<J: Job>(
    alloc: Global,
    leaves: &mut Vec<Group<J>>,
    sheet: &Sheet<J>,
) -> Result<(), AllocError>
    ensures ok { OnOk result (AddsLeaf sheet.now leaves.old.items leaves.new.items) }
    ensures sound { OnOk result (IsLeaf J.good sheet.now.setting sheet.now) }
    ensures err { OnErr result (leaves.new.items ≡ leaves.old.items) }
{
    let first = sheet.share()?;
    leaves.push(Group {
        first,
        holds: Vec::new(alloc),
        ended: false,
    })?;
    Ok(())
}
