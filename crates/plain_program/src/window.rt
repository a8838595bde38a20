//! A window as plain lists.
ghost use Rattle.std.specs.Prelude.{◌≡◌, IfOk};
ghost use Rattle.window_manager.specs.Windows.{empty_window};

use record_text::{Kind, Name, Records};
use std::alloc::Global;
use std::marker::Model;

/// A file of a document: its name, and its records in chunks.
#[derive(Drop)]
pub(crate) struct PlainFile {
    pub(crate) name: Name,
    pub(crate) chunks: Vec<Records>,
}

impl Model for PlainFile {
    ghost use Rattle.chunk_store.specs.Files.{File};

    ghost Value = { File };

    ghost view = { λ f. (f.name, f.chunks.items) };
}

/// What a window holds, modelled as in the definitions.
#[derive(Drop)]
pub(crate) struct PlainWindow {
    pub(crate) kind: Kind,
    pub(crate) places: u32,
    pub(crate) leaves: Vec<Records>,
    pub(crate) files: Vec<PlainFile>,
    pub(crate) current: Name,
}

impl Model for PlainWindow {
    ghost use Rattle.window_manager.specs.Windows.{WindowState};

    ghost Value = { WindowState };

    ghost view = { λ w. record { kind = w.kind; places = w.places; leaves = w.leaves.items; files = w.files.items; current = w.current } };
}

impl PlainWindow {
    /// The empty window of a kind.
    pub(crate) fn new(alloc: Global, kind: Kind, places: u32) -> PlainWindow
        ensures { result ≡ empty_window kind places }
    {
        PlainWindow {
            kind,
            places,
            leaves: Vec::new(alloc),
            files: Vec::new(alloc),
            current: Name::empty(alloc),
        }
    }
}
