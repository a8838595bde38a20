//! The value of a group.
ghost use Rattle.std.specs.Prelude.{◌≡◌, ◌++◌, [], ◌∷◌, IfOk, OnOk, OnErr};
ghost use Rattle.std.specs.Ordering.{is_gt};
ghost use Rattle.job_topk.specs.TopK.{member_cmp};

use jobs_basic::Bytes;
use std::alloc::{AllocError, Global};
use std::marker::Model;

/// The members of a group: scores, each with an item, modelled as that list.
#[derive(Drop)]
pub struct Members {
    members: Vec<(u32, Bytes)>,
}

impl Model for Members {
    ghost use Rattle.std.specs.Prelude.{List, ℕ};

    ghost Value = { List (ℕ × List ℕ) };

    ghost view = { λ m. m.members.items };
}

/// Whether `a` comes after `b`: its score is lower, or equal and its item is higher in byte order.
pub fn is_behind(a: &(u32, Bytes), b: &(u32, Bytes)) -> bool
    ensures { result ≡ is_gt (member_cmp a.now b.now) }
{
    b.0.cmp(&a.0).then(a.1.bytes().cmp(&b.1.bytes())).is_gt()
}

impl Members {
    /// No members, with room for `most`.
    pub fn with_room(alloc: Global, most: usize) -> Result<Members, AllocError>
        ensures { IfOk result (λ m. m ≡ []) }
    {
        let members = Vec::with_capacity(alloc, most)?;
        Ok(Members { members })
    }

    /// The list of one member.
    pub fn of(alloc: Global, score: u32, item: Bytes) -> Result<Members, AllocError>
        ensures { IfOk result (λ m. m ≡ (score, item) ∷ []) }
    {
        let mut members = Vec::new(alloc);
        members.push((score, item))?;
        Ok(Members { members })
    }

    /// Adds a member at the end, whose item is shared.
    pub fn push(&mut self, member: &(u32, Bytes)) -> Result<(), AllocError>
        ensures ok { OnOk result (self.new ≡ self.old ++ member.now ∷ []) }
        ensures err { OnErr result (self.new ≡ self.old) }
    {
        let item = member.1.share()?;
        self.members.push((member.0, item))?;
        Ok(())
    }

    /// An equal list, whose items are shared.
    pub fn copy(&self, alloc: Global) -> Result<Members, AllocError>
        ensures { IfOk result (λ m. m ≡ self.now) }
    {
        let mut copied = Members::with_room(alloc, self.members.len())?;
        'members: for member in self.members.as_slice() {
            copied.push(member)?;
        }
        Ok(copied)
    }

    /// The members in their order.
    pub fn members(&self) -> &[(u32, Bytes)]
        ensures { result.now ≡ self.now }
    {
        self.members.as_slice()
    }
}
