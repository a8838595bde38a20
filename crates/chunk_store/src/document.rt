//! One document: an edit cuts again only around its place, and the chunks are still those that are cut from nothing.
ghost use Rattle.std.specs.Prelude.{◌≡◌, ◌<◌, ◌≤◌, ◌+◌, ◌++◌, [], length, take, drop, slice_index_or, IfOk, OnOk, OnErr};
ghost use Rattle.definitions.specs.Limits.{most_text};
ghost use Rattle.definitions.specs.Records.{text_of};
ghost use Rattle.marker_chunker.specs.Cuts.{joined, chunks_of};
ghost use Rattle.chunk_store.specs.Documents.{spliced, text_size, Answers, IsSplice, IsChange, IsWhole};

use crate::chunk::Chunk;
use crate::places::text_kept;
use crate::recut::{cut_again, cut_whole};
use crate::{Change, EditFault};
use record_text::{Bundle, Records};
use std::alloc::{AllocError, Global};
use std::marker::Model;

/// The most bytes of text of a document, or of all files together.
const MOST_TEXT: u64 = definitions::MOST_TEXT as u64;

/// Replaces the chunks from `first` to `last` by fresh ones; the others are moved, not copied.
fn replace(
    chunks: &mut Vec<Chunk>,
    first: usize,
    last: usize,
    mut fresh: Vec<Chunk>,
) -> Result<(), AllocError>
    requires { (first ≤ last) × (last ≤ length chunks.old.items) }
    ensures ok { OnOk result (chunks.new.items ≡ take first chunks.old.items ++ (fresh.items ++ drop last chunks.old.items)) }
    ensures err { OnErr result (chunks.new.items ≡ chunks.old.items) }
{
    chunks.try_reserve(fresh.len())?;
    let mut rest = chunks.split_off(last)?;
    chunks.truncate(first);
    if chunks.append(&mut fresh).is_err() {
        unreachable!();
    }
    if chunks.append(&mut rest).is_err() {
        unreachable!();
    }
    Ok(())
}

/// A list of records, modelled as its chunks: those into which the records are cut from nothing. It has at most
/// 268,435,456 bytes of text.
#[derive(Drop)]
pub struct Document {
    chunks: Vec<Chunk>,
    count: usize,
    size: u64,
}

impl Model for Document {
    ghost use Rattle.std.specs.Prelude.{◌≡◌, ◌≤◌, List, ℕ, length};
    ghost use Rattle.std.specs.declared.option.Option.TheVariants.{None};
    ghost use Rattle.marker_chunker.specs.Cuts.{joined, AreChunks};
    ghost use Rattle.chunk_store.specs.Documents.{text_size};
    ghost use Rattle.definitions.specs.Limits.{most_text};

    ghost Value = { List (List (List ℕ)) };

    ghost view = { λ d. d.chunks.items };

    ghost invariant = { λ d. AreChunks d.chunks.items None × (d.count ≡ length (joined d.chunks.items)) × (d.size ≡ text_size d.chunks.items) × (d.size ≤ most_text) };
}

impl Document {
    /// No records. It takes no memory.
    pub fn new(alloc: Global) -> Document
        ensures { result ≡ [] }
    {
        Document {
            chunks: Vec::new(alloc),
            count: 0,
            size: 0,
        }
    }

    /// How many chunks there are.
    pub fn chunk_count(&self) -> usize
        ensures count { result ≡ length self.now }
        ensures chunks { self.now ≡ chunks_of (joined self.now) }
    {
        self.chunks.len()
    }

    /// A chunk, by its place.
    pub fn chunk(&self, i: usize) -> &Bundle
        requires { i < length self.now }
        ensures { result.now ≡ slice_index_or self.now i [] }
    {
        self.chunks[i].bundle()
    }

    /// How many records there are.
    pub fn record_count(&self) -> usize
        ensures { result ≡ length (joined self.now) }
    {
        self.count
    }

    /// How many bytes the text of the records has.
    pub fn text_len(&self) -> u64
        ensures size { result ≡ text_size self.now }
        ensures most { result ≤ most_text }
    {
        self.size
    }

    /// Cuts again when `del` records from place `at` on become `ins`; `size` is the size of the text afterwards.
    fn splice(
        &mut self,
        alloc: Global,
        at: usize,
        del: usize,
        ins: &Records,
        size: u64,
    ) -> Result<Change, AllocError>
        requires within { at + del ≤ length (joined self.old) }
        requires size { size ≡ length (text_of (spliced at del ins.now (joined self.old))) }
        requires most { size ≤ most_text }
        ensures ok { OnOk result (self.new ≡ chunks_of (spliced at del ins.now (joined self.old))) }
        ensures change { IfOk result (IsChange at del ins.now self.old self.new) }
        ensures splice { IfOk result (IsSplice self.old self.new) }
        ensures err { OnErr result (self.new ≡ self.old) }
    {
        let again = match cut_again(alloc, self.chunks.as_slice(), at, del, ins) {
            Ok(again) => again,
            Err(e) => return Err(e),
        };
        let change = Change {
            first: again.first,
            gone: again.last - again.first,
            fresh: again.fresh.len(),
        };
        match replace(&mut self.chunks, again.first, again.last, again.fresh) {
            Ok(()) => (),
            Err(e) => return Err(e),
        }
        self.count = self.count - del + ins.len();
        self.size = size;
        Ok(change)
    }

    /// Edits a document, when other files have `others` bytes of text.
    pub(crate) fn edit_beside(
        &mut self,
        alloc: Global,
        at: u32,
        del: u32,
        ins: &Records,
        others: u64,
    ) -> Result<Change, EditFault>
        requires { others + text_size self.old ≤ most_text }
        ensures answers { Answers (length (joined self.old) < at + del) (most_text < others + length (text_of (spliced at del ins.now (joined self.old)))) result }
        ensures ok { OnOk result (self.new ≡ chunks_of (spliced at del ins.now (joined self.old))) }
        ensures change { IfOk result (IsChange at del ins.now self.old self.new) }
        ensures splice { IfOk result (IsSplice self.old self.new) }
        ensures err { OnErr result (self.new ≡ self.old) }
    {
        let from = at as usize;
        let gone = del as usize;
        if from + gone > self.count {
            return Err(EditFault::TooMany);
        }
        let kept = text_kept(self.chunks.as_slice(), self.size, from, gone);
        let more = ins.text_len();
        if more > MOST_TEXT - (others + kept) {
            return Err(EditFault::WindowLarge);
        }
        match self.splice(alloc, from, gone, ins, kept + more) {
            Ok(change) => Ok(change),
            Err(_) => Err(EditFault::Mem),
        }
    }

    /// Loads a document, when other files have `others` bytes of text.
    pub(crate) fn load_beside(
        &mut self,
        alloc: Global,
        records: &Records,
        others: u64,
    ) -> Result<Change, EditFault>
        requires { others ≤ most_text }
        ensures answers { Answers ⊥ (most_text < others + length (text_of records.now)) result }
        ensures ok { OnOk result (self.new ≡ chunks_of records.now) }
        ensures change { IfOk result (IsWhole 0 self.old self.new) }
        ensures err { OnErr result (self.new ≡ self.old) }
    {
        if records.text_len() > MOST_TEXT - others {
            return Err(EditFault::WindowLarge);
        }
        let fresh = match cut_whole(alloc, records) {
            Ok(fresh) => fresh,
            Err(_) => return Err(EditFault::Mem),
        };
        let change = Change {
            first: 0,
            gone: self.chunks.len(),
            fresh: fresh.len(),
        };
        self.count = records.len();
        self.size = records.text_len();
        self.chunks = fresh;
        Ok(change)
    }

    /// Replaces `del` records from place `at` on, counted from 0, by `ins`. Chunks are cut again from that of the
    /// record before `at` to the first old boundary after the edit; this costs their text, and a walk over the counts
    /// of the other chunks. On an error nothing changes.
    ///
    /// # Errors
    ///
    /// `TooMany` if the edit reaches past the last record, `WindowLarge` if the text would have more than 268,435,456
    /// bytes, `Mem` out of memory.
    pub fn edit(
        &mut self,
        alloc: Global,
        at: u32,
        del: u32,
        ins: Records,
    ) -> Result<Change, EditFault>
        ensures answers { Answers (length (joined self.old) < at + del) (most_text < length (text_of (spliced at del ins (joined self.old)))) result }
        ensures ok { OnOk result (self.new ≡ chunks_of (spliced at del ins (joined self.old))) }
        ensures change { IfOk result (IsChange at del ins self.old self.new) }
        ensures splice { IfOk result (IsSplice self.old self.new) }
        ensures err { OnErr result (self.new ≡ self.old) }
    {
        let _ = self.text_len();
        self.edit_beside(alloc, at, del, &ins, 0)
    }

    /// Replaces all records by these. It costs their text. On an error nothing changes.
    ///
    /// # Errors
    ///
    /// `WindowLarge` if the text would have more than 268,435,456 bytes, `Mem` out of memory.
    pub fn load(&mut self, alloc: Global, records: Records) -> Result<Change, EditFault>
        ensures answers { Answers ⊥ (most_text < length (text_of records)) result }
        ensures ok { OnOk result (self.new ≡ chunks_of records) }
        ensures change { IfOk result (IsWhole 0 self.old self.new) }
        ensures err { OnErr result (self.new ≡ self.old) }
    {
        self.load_beside(alloc, &records, 0)
    }
}
