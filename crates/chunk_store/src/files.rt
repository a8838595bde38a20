//! The documents of a window, edited by the name that a command chose before.
ghost use Rattle.std.specs.Prelude.{◌≡◌, ◌<◌, ◌≤◌, ◌+◌, [], ◌⊎◌, length, slice_index_or, IfOk, OnOk, OnErr};
ghost use Rattle.definitions.specs.Limits.{most_files, most_text};
ghost use Rattle.marker_chunker.specs.Cuts.{joined, chunks_of};
ghost use Rattle.chunk_store.specs.Documents.{text_size, Answers, IsSplice};
ghost use Rattle.chunk_store.specs.Files.{HasRisingNames, HasDocuments, IsOneTooMany, IsEditOf, IsLoadOf, all_chunks, edited, file_at, with_file};

use crate::shelf::Shelf;
use crate::{Change, EditFault};
use record_text::{Bundle, Name, Records};
use std::alloc::{AllocError, Global};
use std::marker::Model;

/// Documents by name, modelled as those that have records, in byte order of their names, and the current name. Edits
/// and loads act on the current file. The chunks are those of the files end to end; none spans two files.
#[derive(Drop)]
pub struct Files {
    shelf: Shelf,
    name: Name,
}

impl Model for Files {
    ghost use Rattle.std.specs.Prelude.{List, ℕ};
    ghost use Rattle.chunk_store.specs.Files.{File};

    ghost Value = { List File × List ℕ };

    ghost view = { λ f. (f.shelf, f.name) };
}

impl Files {
    /// No file, and the empty current name. It takes no memory.
    pub fn new(alloc: Global) -> Files
        ensures { result ≡ ([], []) }
    {
        Files {
            shelf: Shelf::new(alloc),
            name: Name::empty(alloc),
        }
    }

    /// Chooses the current name, whether or not there is such a file. Out of memory, nothing changes.
    pub fn select(&mut self, alloc: Global, name: &Name) -> Result<(), AllocError>
        ensures ok { OnOk result (self.new ≡ (self.old.0, name.now)) }
        ensures err { OnErr result (self.new ≡ self.old) }
    {
        self.name = name.copy(alloc)?;
        Ok(())
    }

    /// How many files have records.
    pub fn file_count(&self) -> usize
        ensures count { result ≡ length self.now.0 }
        ensures most { result ≤ most_files }
        ensures names { HasRisingNames self.now.0 }
        ensures documents { HasDocuments self.now.0 }
    {
        self.shelf.file_count()
    }

    /// How many chunks all files have.
    pub fn chunk_count(&self) -> usize
        ensures { result ≡ length (all_chunks self.now.0) }
    {
        self.shelf.chunk_count()
    }

    /// A chunk, by its place among those of all files. It is a binary search among the files.
    pub fn chunk(&self, i: usize) -> &Bundle
        requires { i < length (all_chunks self.now.0) }
        ensures { result.now ≡ slice_index_or (all_chunks self.now.0) i [] }
    {
        self.shelf.chunk(i)
    }

    /// How many records the current file has.
    pub fn record_count(&self) -> usize
        ensures { result ≡ length (joined (file_at self.now.1 self.now.0)) }
    {
        self.shelf.record_count(&self.name)
    }

    /// How many bytes the text of all files has.
    pub fn text_len(&self) -> u64
        ensures size { result ≡ text_size (all_chunks self.now.0) }
        ensures most { result ≤ most_text }
    {
        self.shelf.text_len()
    }

    /// Edits the current file: replaces `del` records from place `at` on, counted from 0, by `ins`. It costs what
    /// [`crate::Document::edit`] costs, and a walk over the files. On an error nothing changes.
    ///
    /// # Errors
    ///
    /// `TooMany` if the edit reaches past the last record, or if there would be more than 65,536 files with records;
    /// `WindowLarge` if the text of all files would have more than 268,435,456 bytes; `Mem` out of memory.
    pub fn edit(
        &mut self,
        alloc: Global,
        at: u32,
        del: u32,
        ins: Records,
    ) -> Result<Change, EditFault>
        ensures answers { Answers ((length (joined (file_at self.old.1 self.old.0)) < at + del) ⊎ IsOneTooMany ins self.old.1 self.old.0) (most_text < text_size (all_chunks (with_file self.old.1 (edited at del ins (file_at self.old.1 self.old.0)) self.old.0))) result }
        ensures ok { OnOk result (self.new ≡ (with_file self.old.1 (edited at del ins (file_at self.old.1 self.old.0)) self.old.0, self.old.1)) }
        ensures change { IfOk result (IsEditOf at del ins self.old.1 self.old.0) }
        ensures splice { IfOk result (IsSplice (all_chunks self.old.0) (all_chunks self.new.0)) }
        ensures err { OnErr result (self.new ≡ self.old) }
    {
        self.shelf.edit(alloc, &self.name, at, del, &ins)
    }

    /// Replaces all records of the current file by these. It costs their text, and a walk over the files. On an error
    /// nothing changes.
    ///
    /// # Errors
    ///
    /// `TooMany` if there would be more than 65,536 files with records; `WindowLarge` if the text of all files would
    /// have more than 268,435,456 bytes; `Mem` out of memory.
    pub fn load(&mut self, alloc: Global, records: Records) -> Result<Change, EditFault>
        ensures answers { Answers (IsOneTooMany records self.old.1 self.old.0) (most_text < text_size (all_chunks (with_file self.old.1 (chunks_of records) self.old.0))) result }
        ensures ok { OnOk result (self.new ≡ (with_file self.old.1 (chunks_of records) self.old.0, self.old.1)) }
        ensures change { IfOk result (IsLoadOf (chunks_of records) self.old.1 self.old.0) }
        ensures splice { IfOk result (IsSplice (all_chunks self.old.0) (all_chunks self.new.0)) }
        ensures err { OnErr result (self.new ≡ self.old) }
    {
        self.shelf.load(alloc, &self.name, &records)
    }

    /// Removes a file; if there is none with this name, nothing changes. It takes no memory.
    pub fn remove(&mut self, name: &Name) -> Change
        ensures files { self.new ≡ (with_file name.now [] self.old.0, self.old.1) }
        ensures change { IsLoadOf [] name.now self.old.0 result }
        ensures splice { IsSplice (all_chunks self.old.0) (all_chunks self.new.0) result }
    {
        self.shelf.remove(name)
    }
}
