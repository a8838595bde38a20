//! A group keeps each of its merges, so that later trees find them all.
ghost use Rattle.std.specs.Prelude.{◌≡◌};
ghost use Rattle.random_tree.specs.Levels.{group_sheet, count_of};

use job_laws::Job;
use sheets::Sheet;
use tree_laws::Hold;

/// A leaf, or the members of the level below that were merged into one.
#[derive(Drop)]
pub(crate) struct Group<J: Job> {
    /// A share of the first member's sheet.
    pub(crate) first: Sheet<J>,
    /// The merges with the other members, from left to right.
    pub(crate) holds: Vec<Hold<J>>,
    /// Whether it ends at its last member, whatever comes after it.
    pub(crate) ended: bool,
}

impl<J: Job> Group<J> {
    /// The merge of all members.
    pub(crate) fn sheet(&self) -> &Sheet<J>
        ensures { result.now ≡ group_sheet self.now }
    {
        match self.holds.last() {
            Some(hold) => hold.sheet(),
            None => &self.first,
        }
    }

    /// How many members it has.
    pub(crate) fn len(&self) -> usize
        ensures { result ≡ count_of self.now }
    {
        self.holds.len() + 1
    }
}
