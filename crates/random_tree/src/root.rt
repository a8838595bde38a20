//! The root: the only group of its level, over all leaves.
ghost use Rattle.std.specs.Prelude.{◌≡◌, map, All, option_copied};
ghost use Rattle.definitions.specs.Tables.{merged};
ghost use Rattle.tree_laws.specs.Trees.{IsMergeOver};
ghost use Rattle.random_tree.specs.Groups.{whole};
ghost use Rattle.random_tree.specs.Levels.{AreLevels, now_of};
ghost use Rattle.random_tree.specs.Steps.{IsRootOf};

use crate::level::Level;
use job_laws::Job;
use sheets::Sheet;

/// The sheet of the only group of a level, if there is such a level.
pub(crate) fn root_of<J: Job>(levels: &[Level<J>]) -> Option<&Sheet<J>>
    ensures { IsRootOf J.good J.joined J.encoded (map now_of levels.now) (option_copied result) }
{
    match levels.split_first() {
        None => return None,
        Some((level, more)) => {
            if level.groups.len() == 1 {
                return Some(level.groups[0].sheet());
            }
            return root_of(more);
        }
    }
}
