//! Boundaries between groups of a level, as places between members of the level below.
ghost use Rattle.std.specs.Prelude.{◌≡◌, ◌+◌, ◌^◌, ◌<◌, ◌≤◌, true, length, take, All};
ghost use Rattle.random_tree.specs.Levels.{span, IsBoundary};

use crate::group::Group;
use job_laws::Job;

/// A number of groups of a level, and how many members they have.
#[derive(Clone, Copy, Drop)]
pub(crate) struct Boundary {
    pub(crate) groups: usize,
    pub(crate) members: usize,
}

/// The last boundary with at most `members` members before it, all in groups that end by themselves: these groups stay,
/// whatever comes after these members. It walks them.
pub(crate) fn kept_before<J: Job>(groups: &[Group<J>], members: usize) -> Boundary
    requires { span groups.now < 2 ^ 63 }
    ensures boundary { IsBoundary groups.now result }
    ensures within { result.members ≤ members }
    ensures ended { All (λ g. g.ended ≡ true) (take result.groups groups.now) }
{
    let mut kept = Boundary {
        groups: 0,
        members: 0,
    };
    'groups: while kept.groups < groups.len() {
        let group = &groups[kept.groups];
        if kept.members + group.len() > members {
            return kept;
        }
        if !group.ended {
            return kept;
        }
        kept = Boundary {
            groups: kept.groups + 1,
            members: kept.members + group.len(),
        };
    }
    kept
}

/// The first boundary from this one on with at least `members` members before it, or the last one. It walks the groups
/// between.
pub(crate) fn reach<J: Job>(groups: &[Group<J>], from: Boundary, members: usize) -> Boundary
    requires span { span groups.now < 2 ^ 63 }
    requires from { IsBoundary groups.now from }
    ensures boundary { IsBoundary groups.now result }
    ensures later { from.groups ≤ result.groups }
{
    let mut reached = from;
    'groups: while reached.groups < groups.len() {
        if reached.members >= members {
            return reached;
        }
        reached = Boundary {
            groups: reached.groups + 1,
            members: reached.members + groups[reached.groups].len(),
        };
    }
    reached
}
