//! A hold on an entry: the caller and the shard, and a share of the entry, whose result it gives.
ghost use Rattle.std.specs.Prelude.{◌≡◌, IfOk};

use memo_server::{Recipe, SharedEntry};
use std::alloc::AllocError;
use std::marker::Model;

/// A caller's hold on an entry, which protects it from sweeps until `Memo::release` takes the pin. A pin that is
/// dropped leaves its entry pinned for the memo's life.
#[derive(Drop)]
pub struct Pin<R: Recipe> {
    pub(crate) caller: u64,
    pub(crate) shard: u32,
    pub(crate) entry: SharedEntry<R>,
}

impl<R: Recipe> Model for Pin<R> {
    ghost use Rattle.pin_table.specs.Views.{PinView};

    ghost Value = { PinView R.In R.Out };

    ghost view = { λ p. record { caller = p.caller; shard = p.shard; id = p.entry.id; input = p.entry.input; out = p.entry.out } };
}

impl<R: Recipe> Pin<R> {
    /// The entry's result, which fits its input.
    pub fn out(&self) -> &R::Out
        ensures value { result.now ≡ self.now.out }
        ensures fits { R.fits self.now.input self.now.out }
    {
        self.entry.out()
    }

    /// Another owner of the entry. It fails only if the count of the `Arc` cannot increase.
    pub fn entry(&self) -> Result<SharedEntry<R>, AllocError>
        ensures same { IfOk result (λ e. (e.id ≡ self.now.id) × (e.input ≡ self.now.input) × (e.out ≡ self.now.out)) }
    {
        self.entry.share()
    }
}
