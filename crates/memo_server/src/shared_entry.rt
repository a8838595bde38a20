//! An entry that several hold: its id, its input and its result, made once and shared by reference counts.
ghost use Rattle.std.specs.Prelude.{◌≡◌, IfOk, IfErr};

use crate::recipe::Recipe;
use std::alloc::{AllocError, AllocFailed, Global};
use std::marker::Model;
use std::sync::Arc;

// An input with a result that fits it.
#[derive(Drop)]
struct Made<R: Recipe> {
    id: u64,
    input: R::In,
    out: R::Out,
}

impl<R: Recipe> Model for Made<R> {
    ghost use Rattle.memo_server.specs.Views.{EntryView};

    ghost Value = { EntryView R.In R.Out };

    ghost view = { λ m. record { id = m.id; input = m.input; out = m.out } };

    ghost invariant = { λ m. R.fits m.input m.out };
}

/// An entry: an input, a result that fits it, and the number that the shard gave it. Sharing it adds one to a count.
#[derive(Drop)]
pub struct SharedEntry<R: Recipe> {
    made: Arc<Made<R>>,
}

impl<R: Recipe> Model for SharedEntry<R> {
    ghost use Rattle.std.specs.Arc.{arc_value};
    ghost use Rattle.memo_server.specs.Views.{EntryView};

    ghost Value = { EntryView R.In R.Out };

    ghost view = { λ s. arc_value s.made };
}

impl<R: Recipe> SharedEntry<R> {
    ghost use Rattle.memo_server.specs.Views.{EntryView, entry_view};

    // A new entry; out of memory, input and result come back.
    pub(crate) fn new(
        alloc: Global,
        id: u64,
        input: R::In,
        out: R::Out,
    ) -> Result<SharedEntry<R>, (AllocError, R::In, R::Out)>
        requires { R.fits input out }
        ensures ok { IfOk result (λ s. s ≡ entry_view id input out) }
        ensures err { IfErr result (λ e. (e.1 ≡ input) × (e.2 ≡ out)) }
    {
        match Arc::new(alloc, Made { id, input, out }) {
            Ok(made) => Ok(SharedEntry { made }),
            Err(failed) => {
                let AllocFailed { value, .. } = failed;
                let Made { id: _, input, out } = value;
                Err((AllocError, input, out))
            }
        }
    }

    /// The number of the entry in its shard.
    pub fn id(&self) -> u64
        ensures { result ≡ self.now.id }
    {
        let made: &Made<R> = &self.made;
        made.id
    }

    /// The input by which the entry is looked up.
    pub fn input(&self) -> &R::In
        ensures { result.now ≡ self.now.input }
    {
        let made: &Made<R> = &self.made;
        &made.input
    }

    /// The result, which fits the input.
    pub fn out(&self) -> &R::Out
        ensures value { result.now ≡ self.now.out }
        ensures fits { R.fits self.now.input self.now.out }
    {
        let made: &Made<R> = &self.made;
        &made.out
    }

    /// Another owner of the same entry. It fails only if the count of the `Arc` cannot increase.
    pub fn share(&self) -> Result<SharedEntry<R>, AllocError>
        ensures same { IfOk result (λ s. s ≡ self.now) }
        ensures fits { R.fits self.now.input self.now.out }
    {
        let _ = self.out();
        Ok(SharedEntry {
            made: Arc::try_clone(&self.made)?,
        })
    }
}
