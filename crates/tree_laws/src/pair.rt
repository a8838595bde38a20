//! Two sheets to be merged are one input of the memo.
use job_laws::Job;
use sheets::Sheet;
use std::marker::Model;

/// Two sheets of one setting, of which the left one came first.
#[derive(Drop)]
pub struct Pair<J: Job> {
    pub left: Sheet<J>,
    pub right: Sheet<J>,
}

impl<J: Job> Model for Pair<J> {
    ghost use Rattle.std.specs.Prelude.{◌≡◌};
    ghost use Rattle.tree_laws.specs.Pairs.{PairOf};

    ghost Value = { PairOf J.Val };

    ghost view = { λ p. record { setting = p.left.setting; left = p.left.entries; right = p.right.entries } };

    ghost invariant = { λ p. p.left.setting ≡ p.right.setting };
}
