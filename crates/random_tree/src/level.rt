//! Members for the level above are read through a level's draft, which is not settled yet.
ghost use Rattle.std.specs.Prelude.{◌≡◌, ◌<◌, [], IfSome, IsTrue, length, map, slice_get, drop, Some};
ghost use Rattle.random_tree.specs.Levels.{Fits, IsUndrafted, taken, now_of, group_sheet};

use crate::draft::Draft;
use crate::group::Group;
use job_laws::Job;
use sheets::Sheet;
use std::alloc::Global;

/// The groups of a level, in order, and the draft of them. On the lowest level each leaf is a group by itself.
#[derive(Drop)]
pub(crate) struct Level<J: Job> {
    pub(crate) groups: Vec<Group<J>>,
    pub(crate) draft: Draft<J>,
}

impl<J: Job> Level<J> {
    /// A level without groups. It takes no memory.
    pub(crate) fn new(alloc: Global) -> Level<J>
        ensures groups { now_of result ≡ [] }
        ensures undrafted { IsUndrafted result }
    {
        Level {
            groups: Vec::new(alloc),
            draft: Draft {
                first: 0,
                gone: 0,
                fresh: Vec::new(alloc),
            },
        }
    }

    /// Whether the draft neither removes nor brings a group.
    pub(crate) fn stays(&self) -> bool
        ensures { IsTrue result → (self.now.draft.gone ≡ 0) × (self.now.draft.fresh.items ≡ []) }
    {
        self.draft.gone == 0 && self.draft.fresh.is_empty()
    }

    /// How many groups it has once the draft is settled.
    pub(crate) fn len(&self) -> usize
        requires { Fits self.now }
        ensures { result ≡ length (taken self.now) }
    {
        self.groups.len() - self.draft.gone + self.draft.fresh.len()
    }

    /// The sheet of a group, by its place once the draft is settled.
    pub(crate) fn member(&self, i: usize) -> &Sheet<J>
        requires fits { Fits self.now }
        requires within { i < length (taken self.now) }
        ensures { slice_get (map group_sheet (taken self.now)) i ≡ Some result.now }
    {
        if i < self.draft.first {
            return self.groups[i].sheet();
        }
        let behind = i - self.draft.first;
        if behind < self.draft.fresh.len() {
            return self.draft.fresh[behind].sheet();
        }
        self.groups[i - self.draft.fresh.len() + self.draft.gone].sheet()
    }

    /// The present place of a group after the draft, by its place once the draft is settled.
    pub(crate) fn place_before(&self, i: usize) -> Option<usize>
        requires fits { Fits self.now }
        requires within { i < length (taken self.now) }
        ensures { IfSome result (λ place. (drop i (taken self.now) ≡ drop place (now_of self.now)) × (place < length (now_of self.now))) }
    {
        if i < self.draft.first + self.draft.fresh.len() {
            return None;
        }
        Some(i - self.draft.fresh.len() + self.draft.gone)
    }
}
