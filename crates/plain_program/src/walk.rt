//! How far a walk over commands is.
ghost use Rattle.std.specs.Prelude.{◌≡◌, []};
ghost use Rattle.window_manager.specs.Windows.{empty_window};

use crate::window::PlainWindow;
use record_text::Kind;
use std::alloc::Global;

/// The number of the next run, the window, and what was written.
#[derive(Drop)]
pub(crate) struct PlainWalk {
    pub(crate) run: u64,
    pub(crate) window: PlainWindow,
    pub(crate) written: Vec<u8>,
}

impl PlainWalk {
    /// The walk before the first run, over the empty window of a kind.
    pub(crate) fn new(alloc: Global, kind: Kind, places: u32) -> PlainWalk
        ensures run { result.run ≡ 1 }
        ensures window { result.window ≡ empty_window kind places }
        ensures written { result.written.items ≡ [] }
    {
        PlainWalk {
            run: 1,
            window: PlainWindow::new(alloc, kind, places),
            written: Vec::new(alloc),
        }
    }
}
