//! Many documents as one list of chunks, with the places where the chunks of each end, so that a chunk is found by a
//! binary search, and with the size of their text.
ghost use Rattle.std.specs.Prelude.{◌≡◌, ◌≢◌, ◌↔◌, IsTrue, ◌<◌, ◌≤◌, ◌+◌, [], ◌⊎◌, length, slice_index_or, IfOk, OnOk, OnErr};
ghost use Rattle.definitions.specs.Limits.{most_files, most_text};
ghost use Rattle.marker_chunker.specs.Cuts.{joined, chunks_of};
ghost use Rattle.chunk_store.specs.Documents.{text_size, Answers, IsSplice};
ghost use Rattle.chunk_store.specs.Files.{HasRisingNames, HasDocuments, IsGap, IsOneTooMany, IsEditOf, IsLoadOf, all_chunks, chunks_before, edited, file_at, raised, with_file};

use crate::file_list::{file_begin, find_chunk, find_file, insert, settle, take_out};
use crate::{Change, Document, EditFault};
use definitions::MOST_FILES;
use record_text::{Bundle, Name, Records};
use std::alloc::{AllocError, Global};
use std::marker::Model;

/// Documents that have records, modelled with their names, in the order of these. The places where their chunks end are
/// kept next to them, so that a chunk of all is found by a binary search.
#[derive(Drop)]
pub struct Shelf {
    files: Vec<(Name, Document)>,
    ends: Vec<usize>,
    size: u64,
}

impl Model for Shelf {
    ghost use Rattle.std.specs.Prelude.{◌≡◌, ◌≤◌, List, length};
    ghost use Rattle.chunk_store.specs.Documents.{text_size};
    ghost use Rattle.chunk_store.specs.Files.{File, IsShelf};

    ghost Value = { List File };

    ghost view = { λ s. s.files.items };

    ghost invariant = { λ s. IsShelf s.files.items s.ends.items s.size };
}

impl Shelf {
    /// No file. It takes no memory.
    pub fn new(alloc: Global) -> Shelf
        ensures { result ≡ [] }
    {
        Shelf {
            files: Vec::new(alloc),
            ends: Vec::new(alloc),
            size: 0,
        }
    }

    /// How many files there are.
    pub fn file_count(&self) -> usize
        ensures count { result ≡ length self.now }
        ensures most { result ≤ most_files }
        ensures names { HasRisingNames self.now }
        ensures documents { HasDocuments self.now }
    {
        self.files.len()
    }

    /// How many chunks all files have.
    pub fn chunk_count(&self) -> usize
        ensures { result ≡ length (all_chunks self.now) }
    {
        file_begin(self.ends.as_slice(), self.ends.len())
    }

    /// A chunk of all, by its place. It is a binary search among the files.
    pub fn chunk(&self, i: usize) -> &Bundle
        requires { i < length (all_chunks self.now) }
        ensures { result.now ≡ slice_index_or (all_chunks self.now) i [] }
    {
        let k = find_chunk(self.ends.as_slice(), i);
        let begin = file_begin(self.ends.as_slice(), k);
        self.files[k].1.chunk(i - begin)
    }

    /// How many records the file with this name has.
    pub fn record_count(&self, name: &Name) -> usize
        ensures { result ≡ length (joined (file_at name.now self.now)) }
    {
        match find_file(self.files.as_slice(), name) {
            Ok(i) => self.files[i].1.record_count(),
            Err(_) => 0,
        }
    }

    /// How many bytes of text all files have.
    pub fn text_len(&self) -> u64
        ensures size { result ≡ text_size (all_chunks self.now) }
        ensures most { result ≤ most_text }
    {
        self.size
    }

    /// Inserts a file at place `i`, after a change that made its document; without records it is not inserted.
    fn add(
        &mut self,
        alloc: Global,
        i: usize,
        name: &Name,
        document: Document,
        change: Change,
    ) -> Result<Change, AllocError>
        requires place { IsGap name.now self.old i }
        requires document { document ≡ chunks_of (joined document) }
        requires room { (document ≢ []) → length self.old < most_files }
        requires small { text_size (all_chunks self.old) + text_size document ≤ most_text }
        requires first { change.first ≡ 0 }
        ensures ok { OnOk result (self.new ≡ with_file name.now document self.old) }
        ensures change { IfOk result (λ c. c ≡ raised (chunks_before name.now self.old) change) }
        ensures err { OnErr result (self.new ≡ self.old) }
    {
        let begin = file_begin(self.ends.as_slice(), i);
        if document.chunk_count() == 0 {
            return Ok(change.raised(begin));
        }
        let size = document.text_len();
        let name = match name.copy(alloc) {
            Ok(name) => name,
            Err(e) => return Err(e),
        };
        match insert(&mut self.files, &mut self.ends, i, name, document) {
            Ok(()) => (),
            Err(e) => return Err(e),
        }
        self.size += size;
        Ok(change.raised(begin))
    }

    /// Whether a file with these records would be one too many.
    fn is_full(&self, records: &Records) -> bool
        ensures { IsTrue result ↔ ((records.now ≢ []) × (length self.now ≡ most_files)) }
    {
        !records.is_empty() && self.files.len() == MOST_FILES
    }

    /// Edits a file that does not exist yet, whose place would be `i`. It fails as `edit` does.
    fn edit_new(
        &mut self,
        alloc: Global,
        i: usize,
        name: &Name,
        at: u32,
        del: u32,
        ins: &Records,
    ) -> Result<Change, EditFault>
        requires { IsGap name.now self.old i }
        ensures answers { Answers ((length (joined (file_at name.now self.old)) < at + del) ⊎ IsOneTooMany ins.now name.now self.old) (most_text < text_size (all_chunks (with_file name.now (edited at del ins.now (file_at name.now self.old)) self.old))) result }
        ensures ok { OnOk result (self.new ≡ with_file name.now (edited at del ins.now (file_at name.now self.old)) self.old) }
        ensures change { IfOk result (IsEditOf at del ins.now name.now self.old) }
        ensures splice { IfOk result (IsSplice (all_chunks self.old) (all_chunks self.new)) }
        ensures err { OnErr result (self.new ≡ self.old) }
    {
        if self.is_full(ins) {
            return Err(EditFault::TooMany);
        }
        let mut document = Document::new(alloc);
        let change = match document.edit_beside(alloc, at, del, ins, self.size) {
            Ok(change) => change,
            Err(fault) => return Err(fault),
        };
        match self.add(alloc, i, name, document, change) {
            Ok(change) => Ok(change),
            Err(_) => Err(EditFault::Mem),
        }
    }

    /// Edits the file with this name. It fails as [`crate::Files::edit`] does, and then changes nothing.
    pub fn edit(
        &mut self,
        alloc: Global,
        name: &Name,
        at: u32,
        del: u32,
        ins: &Records,
    ) -> Result<Change, EditFault>
        ensures answers { Answers ((length (joined (file_at name.now self.old)) < at + del) ⊎ IsOneTooMany ins.now name.now self.old) (most_text < text_size (all_chunks (with_file name.now (edited at del ins.now (file_at name.now self.old)) self.old))) result }
        ensures ok { OnOk result (self.new ≡ with_file name.now (edited at del ins.now (file_at name.now self.old)) self.old) }
        ensures change { IfOk result (IsEditOf at del ins.now name.now self.old) }
        ensures splice { IfOk result (IsSplice (all_chunks self.old) (all_chunks self.new)) }
        ensures err { OnErr result (self.new ≡ self.old) }
    {
        let i = match find_file(self.files.as_slice(), name) {
            Ok(i) => i,
            Err(i) => return self.edit_new(alloc, i, name, at, del, ins),
        };
        let begin = file_begin(self.ends.as_slice(), i);
        let others = self.size - self.files[i].1.text_len();
        let change = match self.files[i].1.edit_beside(alloc, at, del, ins, others) {
            Ok(change) => change,
            Err(fault) => return Err(fault),
        };
        self.size = others + self.files[i].1.text_len();
        settle(&mut self.files, &mut self.ends, i);
        Ok(change.raised(begin))
    }

    /// Loads a file that does not exist yet, whose place would be `i`. It fails as `load` does.
    fn load_new(
        &mut self,
        alloc: Global,
        i: usize,
        name: &Name,
        records: &Records,
    ) -> Result<Change, EditFault>
        requires { IsGap name.now self.old i }
        ensures answers { Answers (IsOneTooMany records.now name.now self.old) (most_text < text_size (all_chunks (with_file name.now (chunks_of records.now) self.old))) result }
        ensures ok { OnOk result (self.new ≡ with_file name.now (chunks_of records.now) self.old) }
        ensures change { IfOk result (IsLoadOf (chunks_of records.now) name.now self.old) }
        ensures splice { IfOk result (IsSplice (all_chunks self.old) (all_chunks self.new)) }
        ensures err { OnErr result (self.new ≡ self.old) }
    {
        if self.is_full(records) {
            return Err(EditFault::TooMany);
        }
        let mut document = Document::new(alloc);
        let change = match document.load_beside(alloc, records, self.size) {
            Ok(change) => change,
            Err(fault) => return Err(fault),
        };
        match self.add(alloc, i, name, document, change) {
            Ok(change) => Ok(change),
            Err(_) => Err(EditFault::Mem),
        }
    }

    /// Loads the file with this name. It fails as [`crate::Files::load`] does, and then changes nothing.
    pub fn load(
        &mut self,
        alloc: Global,
        name: &Name,
        records: &Records,
    ) -> Result<Change, EditFault>
        ensures answers { Answers (IsOneTooMany records.now name.now self.old) (most_text < text_size (all_chunks (with_file name.now (chunks_of records.now) self.old))) result }
        ensures ok { OnOk result (self.new ≡ with_file name.now (chunks_of records.now) self.old) }
        ensures change { IfOk result (IsLoadOf (chunks_of records.now) name.now self.old) }
        ensures splice { IfOk result (IsSplice (all_chunks self.old) (all_chunks self.new)) }
        ensures err { OnErr result (self.new ≡ self.old) }
    {
        let i = match find_file(self.files.as_slice(), name) {
            Ok(i) => i,
            Err(i) => return self.load_new(alloc, i, name, records),
        };
        let begin = file_begin(self.ends.as_slice(), i);
        let others = self.size - self.files[i].1.text_len();
        let change = match self.files[i].1.load_beside(alloc, records, others) {
            Ok(change) => change,
            Err(fault) => return Err(fault),
        };
        self.size = others + self.files[i].1.text_len();
        settle(&mut self.files, &mut self.ends, i);
        Ok(change.raised(begin))
    }

    /// Removes the file with this name. It takes no memory.
    pub fn remove(&mut self, name: &Name) -> Change
        ensures files { self.new ≡ with_file name.now [] self.old }
        ensures change { IsLoadOf [] name.now self.old result }
        ensures splice { IsSplice (all_chunks self.old) (all_chunks self.new) result }
    {
        let i = match find_file(self.files.as_slice(), name) {
            Ok(i) => i,
            Err(i) => {
                let first = file_begin(self.ends.as_slice(), i);
                return Change {
                    first,
                    gone: 0,
                    fresh: 0,
                };
            }
        };
        let first = file_begin(self.ends.as_slice(), i);
        let gone = self.files[i].1.chunk_count();
        self.size -= self.files[i].1.text_len();
        take_out(&mut self.files, &mut self.ends, i);
        Change {
            first,
            gone,
            fresh: 0,
        }
    }
}
