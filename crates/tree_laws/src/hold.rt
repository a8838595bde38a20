//! The two ways in which a tree holds a node: by a pin on the memo's entry, or without one.
ghost use Rattle.std.specs.Prelude.{◌≡◌};
ghost use Rattle.tree_laws.specs.Holds.{sheet_of};

use crate::MergeRecipe;
use job_laws::Job;
use pin_table::Pin;
use sheets::Sheet;

/// The sheet of a merge: by a pin on the memo's entry; or loose, if the memo did not take it because another input has
/// its digest, or because the lock is worn.
#[derive(Drop)]
pub enum Hold<J: Job> {
    Pinned(Pin<MergeRecipe<J>>),
    Loose(Sheet<J>),
}

impl<J: Job> Hold<J> {
    /// The merged sheet.
    pub fn sheet(&self) -> &Sheet<J>
        ensures { result.now ≡ sheet_of self.now }
    {
        match self {
            Hold::Pinned(pin) => pin.out(),
            Hold::Loose(sheet) => sheet,
        }
    }
}
