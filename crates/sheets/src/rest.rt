//! The rest of a table.
ghost use Rattle.std.specs.Prelude.{◌≡◌, ◌∷◌, [], drop, IfSome, None};
ghost use Rattle.definitions.specs.Tables.{HasGoodValues, IsRising};

use crate::Sheet;
use job_laws::{Job, Key};
use std::marker::Model;

/// The entries of a sheet that are not taken yet.
#[derive(Drop)]
pub(crate) struct Rest<'a, J: Job> {
    entries: &'a [(Key, J::Val)],
}

impl<'a, J: Job> Model for Rest<'a, J> {
    ghost use Rattle.std.specs.Prelude.{List, ℕ};

    ghost Value = { List (List ℕ × J.Val) };

    ghost view = { λ r. r.entries.now };
}

impl<'a, J: Job> Rest<'a, J> {
    /// All entries of a sheet.
    pub(crate) fn of(sheet: &'a Sheet<J>) -> Rest<'a, J>
        ensures value { result ≡ sheet.now.entries }
        ensures rising { IsRising result }
        ensures good { HasGoodValues (J.good sheet.now.setting) result }
    {
        Rest {
            entries: sheet.entries().as_slice(),
        }
    }

    /// The first entry.
    pub(crate) fn first(&self) -> Option<&'a (Key, J::Val)>
        ensures none { result ≡ None → self.now ≡ [] }
        ensures some { IfSome result (λ e. self.now ≡ e.now ∷ drop 1 self.now) }
    {
        self.entries.first()
    }

    /// Takes the first entry.
    pub(crate) fn take_first(&mut self)
        ensures { self.new ≡ drop 1 self.old }
    {
        if let [_, more @ ..] = self.entries {
            self.entries = more;
        }
    }
}
