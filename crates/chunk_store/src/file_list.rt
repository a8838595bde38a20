//! A list of documents in the order of their names, and the places where the chunks of each end.
ghost use Rattle.std.specs.Prelude.{◌≡◌, ◌<◌, ◌≤◌, ◌+◌, ◌++◌, ◌∷◌, List, length, take, drop, slice_index_or, vec_capacity, IfOk, IfErr, OnOk, OnErr};
ghost use Rattle.definitions.specs.Limits.{most_text};
ghost use Rattle.chunk_store.specs.Files.{File, HasRisingNames, IsAt, IsGap, all_chunks, ends_of, file_of};

use crate::Document;
use record_text::Name;
use std::alloc::AllocError;

/// The place of the file with this name; `Err` with the place where it would be if there is none. It is a binary
/// search.
pub fn find_file(files: &[(Name, Document)], name: &Name) -> Result<usize, usize>
    requires { HasRisingNames files.now }
    ensures here { IfOk result (IsAt name.now files.now) }
    ensures gap { IfErr result (IsGap name.now files.now) }
{
    let i = files.partition_point(|file| file.0.compare(name).is_lt());
    if i == files.len() {
        return Err(i);
    }
    if files[i].0.same(name) {
        return Ok(i);
    }
    Err(i)
}

/// How many chunks come before file `i`.
pub fn file_begin(ends: &[usize], i: usize) -> usize
    requires { i ≤ length ends.now }
    ensures { (files : List File) → ends.now ≡ ends_of 0 files → result ≡ length (all_chunks (take i files)) }
{
    if i == 0 { 0 } else { ends[i - 1] }
}

/// The file that holds chunk `i` of all.
pub fn find_chunk(ends: &[usize], i: usize) -> usize
    ensures { (files : List File) → ends.now ≡ ends_of 0 files → i < length (all_chunks files) → (result < length files) × (length (all_chunks (take result files)) ≤ i) × (i < length (all_chunks (take (result + 1) files))) }
{
    ends.partition_point(|end| *end <= i)
}

/// Notes where the chunks of each file end, from file `from` on; the notes before it stay.
fn fill(ends: &mut Vec<usize>, files: &[(Name, Document)], from: usize)
    requires within { from ≤ length files.now }
    requires prefix { take from ends.old.items ≡ ends_of 0 (take from files.now) }
    requires room { length files.now ≤ vec_capacity ends.old }
    requires small { length (all_chunks files.now) ≤ most_text }
    ensures { ends.new.items ≡ ends_of 0 files.now }
{
    ends.truncate(from);
    let mut end = file_begin(ends.as_slice(), from);
    'files: for i in from..files.len() {
        end += files[i].1.chunk_count();
        ends.push_reserved(end);
    }
}

/// Removes file `i` after a change that left it without records.
fn drop_empty(files: &mut Vec<(Name, Document)>, i: usize)
    requires { i < length files.old.items }
    ensures { (d : File) → files.new.items ≡ take i files.old.items ++ (file_of (slice_index_or files.old.items i d).0 (slice_index_or files.old.items i d).1 ++ drop (i + 1) files.old.items) }
{
    if files[i].1.chunk_count() == 0 {
        drop(files.remove(i));
    }
}

/// The same, and notes again where chunks end.
pub fn settle(files: &mut Vec<(Name, Document)>, ends: &mut Vec<usize>, i: usize)
    requires within { i < length files.old.items }
    requires prefix { take i ends.old.items ≡ ends_of 0 (take i files.old.items) }
    requires ends { length ends.old.items ≡ length files.old.items }
    requires small { length (all_chunks files.old.items) ≤ most_text }
    ensures files { (d : File) → files.new.items ≡ take i files.old.items ++ (file_of (slice_index_or files.old.items i d).0 (slice_index_or files.old.items i d).1 ++ drop (i + 1) files.old.items) }
    ensures ends { ends.new.items ≡ ends_of 0 files.new.items }
{
    drop_empty(files, i);
    fill(ends, files.as_slice(), i);
}

/// Inserts a document at place `i`.
pub fn insert(
    files: &mut Vec<(Name, Document)>,
    ends: &mut Vec<usize>,
    i: usize,
    name: Name,
    document: Document,
) -> Result<(), AllocError>
    requires within { i ≤ length files.old.items }
    requires ends { ends.old.items ≡ ends_of 0 files.old.items }
    requires small { length (all_chunks files.old.items) + length document ≤ most_text }
    ensures files { OnOk result (files.new.items ≡ take i files.old.items ++ ((name, document) ∷ drop i files.old.items)) }
    ensures ends { OnOk result (ends.new.items ≡ ends_of 0 files.new.items) }
    ensures err { OnErr result ((files.new.items ≡ files.old.items) × (ends.new.items ≡ ends.old.items)) }
{
    match ends.try_reserve(1) {
        Ok(()) => (),
        Err(e) => return Err(e),
    }
    match files.insert(i, (name, document)) {
        Ok(()) => (),
        Err(_) => return Err(AllocError),
    }
    fill(ends, files.as_slice(), i);
    Ok(())
}

/// Removes the document at place `i`.
pub fn take_out(files: &mut Vec<(Name, Document)>, ends: &mut Vec<usize>, i: usize)
    requires within { i < length files.old.items }
    requires ends { ends.old.items ≡ ends_of 0 files.old.items }
    requires small { length (all_chunks files.old.items) ≤ most_text }
    ensures files { files.new.items ≡ take i files.old.items ++ drop (i + 1) files.old.items }
    ensures ends { ends.new.items ≡ ends_of 0 files.new.items }
{
    drop(files.remove(i));
    fill(ends, files.as_slice(), i);
}
