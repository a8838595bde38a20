//! The part of a node. If only one half has leaves, a node passes their sheet up, so it has no merge.
ghost use Rattle.std.specs.Prelude.{◌≡◌};
ghost use Rattle.folding_tree.specs.Levels.{part_sheet};

use job_laws::Job;
use sheets::Sheet;
use tree_laws::Hold;

/// What a node has.
#[derive(Drop)]
pub(crate) enum Part<J: Job> {
    /// The sheet of a leaf, or of the only half that has leaves.
    Shared(Sheet<J>),
    /// The merge of both halves.
    Merged(Hold<J>),
}

impl<J: Job> Part<J> {
    /// The merge of the leaves below.
    pub(crate) fn sheet(&self) -> &Sheet<J>
        ensures { result.now ≡ part_sheet self.now }
    {
        match self {
            Part::Shared(sheet) => sheet,
            Part::Merged(hold) => hold.sheet(),
        }
    }
}
