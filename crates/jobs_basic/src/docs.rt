//! Lists of documents.
ghost use Rattle.std.specs.Prelude.{◌≡◌, [], ◌∷◌, ◌++◌, IfOk};
ghost use Rattle.jobs_basic.specs.Index.{union};

use std::alloc::{AllocError, Global};
use std::marker::Model;

/// A list of documents by their numbers, strictly rising.
#[derive(Drop)]
pub struct Docs {
    docs: Vec<u32>,
}

impl Model for Docs {
    ghost use Rattle.std.specs.Prelude.{List, ℕ};

    ghost Value = { List ℕ };

    ghost view = { λ d. d.docs.items };
}

impl Docs {
    /// The list of one document.
    pub fn of(alloc: Global, doc: u32) -> Result<Docs, AllocError>
        ensures { IfOk result (λ docs. docs ≡ doc ∷ []) }
    {
        let mut docs = Vec::new(alloc);
        docs.push(doc)?;
        Ok(Docs { docs })
    }

    /// An equal list.
    pub fn copy(&self, alloc: Global) -> Result<Docs, AllocError>
        ensures { IfOk result (λ docs. docs ≡ self.now) }
    {
        let docs = Vec::from_slice(alloc, self.docs.as_slice())?;
        Ok(Docs { docs })
    }

    /// The documents in their order.
    pub fn docs(&self) -> &[u32]
        ensures { result.now ≡ self.now }
    {
        self.docs.as_slice()
    }

    /// The union of both. It is one pass over each list: room for all is taken first, so each document is copied once,
    /// and the rest of one list after the other's end is copied in one go.
    #[tactic(auto, using(crate::proofs::Documents::union_left, crate::proofs::Documents::union_right))]
    pub fn union(&self, alloc: Global, other: &Docs) -> Result<Docs, AllocError>
        ensures { IfOk result (λ docs. docs ≡ union self.now other.now) }
    {
        let mut docs = Vec::with_capacity(alloc, self.docs.len() + other.docs.len())?;
        let mut left = self.docs.as_slice();
        let mut right = other.docs.as_slice();
        'both: while let ([d, more @ ..], [e, others @ ..]) = (left, right) {
            if *d < *e {
                docs.push(*d)?;
                left = more;
            } else if *e < *d {
                docs.push(*e)?;
                right = others;
            } else {
                docs.push(*d)?;
                left = more;
                right = others;
            }
        }
        docs.extend_from_slice(left)?;
        docs.extend_from_slice(right)?;
        Ok(Docs { docs })
    }
}
