//! A single leaf is its own root, so a tree of one leaf has no merge.
ghost use Rattle.std.specs.Prelude.{ℕ, All, option_copied};
ghost use Rattle.sheets.specs.United.{tables_of};
ghost use Rattle.tree_laws.specs.Trees.{IsLeaf, IsMergeOver};
ghost use Rattle.coalescing_tree.specs.Growing.{IsTop};

use job_laws::Job;
use sheets::Sheet;
use tree_laws::Hold;

/// The merge over the leaves: the sheet of the top merge, or of the only leaf.
pub(crate) fn root_over<'a, J: Job>(
    leaves: &'a [Sheet<J>],
    top: Option<&'a Hold<J>>,
) -> Option<&'a Sheet<J>>
    ensures { (setting : ℕ) → All (IsLeaf J.good setting) leaves.now → IsTop J.joined setting leaves.now (option_copied top.entry) → IsMergeOver J.joined setting (tables_of leaves.now) (option_copied result) }
{
    match top {
        Some(hold) => return Some(hold.sheet()),
        None => return leaves.first(),
    }
}
