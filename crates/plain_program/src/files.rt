//! The files of a document.
ghost use Rattle.std.specs.Prelude.{◌≡◌, ◌++◌, ◌∷◌, [], IfOk, OnOk};
ghost use Rattle.marker_chunker.specs.Cuts.{joined};
ghost use Rattle.chunk_store.specs.Files.{all_chunks, file_at, greater, smaller, with_file};

use crate::records::{append_leaves, joined_leaves};
use crate::window::PlainFile;
use record_text::{Name, Records};
use std::alloc::{AllocError, Global};
use std::cmp::Ordering;

/// The records of the file with a name; none if there is no such file.
pub(crate) fn file_records(
    alloc: Global,
    files: &[PlainFile],
    name: &Name,
) -> Result<Records, AllocError>
    ensures { IfOk result (λ records. records ≡ joined (file_at name.now files.now)) }
{
    let mut rest = files;
    'files: while let [file, more @ ..] = rest {
        if name.compare(&file.name) == Ordering::Equal {
            return joined_leaves(alloc, &file.chunks);
        }
        rest = more;
    }
    Ok(Records::new(alloc))
}

/// The chunks of all files, in the order of their names.
pub(crate) fn chunks_of_files(
    alloc: Global,
    files: &[PlainFile],
) -> Result<Vec<Records>, AllocError>
    ensures { IfOk result (λ chunks. chunks.items ≡ all_chunks files.now) }
{
    let mut chunks = Vec::new(alloc);
    let mut rest = files;
    'files: while let [file, more @ ..] = rest {
        match append_leaves(alloc, &mut chunks, &file.chunks) {
            Ok(()) => (),
            Err(e) => return Err(e),
        }
        rest = more;
    }
    Ok(chunks)
}

/// The files, where the one with a name has these chunks; without chunks it is left out.
pub(crate) fn files_with(
    alloc: Global,
    files: &[PlainFile],
    name: &Name,
    chunks: Vec<Records>,
) -> Result<Vec<PlainFile>, AllocError>
    ensures { IfOk result (λ all. all.items ≡ with_file name.now chunks.items files.now) }
{
    let mut all = Vec::new(alloc);
    append_smaller(alloc, &mut all, files, name)?;
    if !chunks.is_empty() {
        let name = name.copy(alloc)?;
        all.push(PlainFile { name, chunks })?;
    }
    append_greater(alloc, &mut all, files, name)?;
    Ok(all)
}

/// Appends the files with smaller names.
fn append_smaller(
    alloc: Global,
    into: &mut Vec<PlainFile>,
    files: &[PlainFile],
    name: &Name,
) -> Result<(), AllocError>
    ensures { OnOk result (into.new.items ≡ into.old.items ++ smaller name.now files.now) }
{
    let mut rest = files;
    'files: while let [file, more @ ..] = rest {
        if file.name.compare(name) == Ordering::Less {
            match append_file(alloc, into, file) {
                Ok(()) => (),
                Err(e) => return Err(e),
            }
        }
        rest = more;
    }
    Ok(())
}

/// Appends the files with greater names.
fn append_greater(
    alloc: Global,
    into: &mut Vec<PlainFile>,
    files: &[PlainFile],
    name: &Name,
) -> Result<(), AllocError>
    ensures { OnOk result (into.new.items ≡ into.old.items ++ greater name.now files.now) }
{
    let mut rest = files;
    'files: while let [file, more @ ..] = rest {
        if name.compare(&file.name) == Ordering::Less {
            match append_file(alloc, into, file) {
                Ok(()) => (),
                Err(e) => return Err(e),
            }
        }
        rest = more;
    }
    Ok(())
}

/// Appends a file, with memory of its own.
fn append_file(alloc: Global, into: &mut Vec<PlainFile>, file: &PlainFile) -> Result<(), AllocError>
    ensures { OnOk result (into.new.items ≡ into.old.items ++ file.now ∷ []) }
{
    let name = file.name.copy(alloc)?;
    let mut chunks = Vec::new(alloc);
    append_leaves(alloc, &mut chunks, &file.chunks)?;
    into.push(PlainFile { name, chunks })?;
    Ok(())
}
