//! Where a chunk ends: after a marker once it has enough text, or before a record that would make its text too long.
ghost use Rattle.std.specs.Prelude.{◌≡◌, ◌<◌, ◌^◌, length, drop, IfOk};
ghost use Rattle.marker_chunker.specs.Cuts.{ends_by, first_length, places, chunks_of};

use crate::marker::is_marker;
use record_text::Records;
use std::alloc::{AllocError, Global};

/// The least bytes of text at which a marker ends a chunk.
const LEAST_CHUNK: u64 = 512;

/// The most bytes of text of a chunk; the longest record fills one.
const MOST_CHUNK: u64 = 65_536;

/// Whether a chunk of `size` bytes ends before a record of `more` bytes, where `marks` says that its last record is a
/// marker.
pub fn ends_before(marks: bool, size: u64, more: usize) -> bool
    requires { (size < 2 ^ 62) × (more < 2 ^ 62) }
    ensures { result ≡ ends_by marks size more }
{
    marks && size >= LEAST_CHUNK || size + (more as u64 + 1) > MOST_CHUNK
}

/// How many records the chunk that begins at `from` has. It is one pass over the bytes of these records.
pub fn first_cut(records: &Records, from: usize) -> usize
    requires { from < length records.now }
    ensures { result ≡ first_length (chunks_of (drop from records.now)) }
{
    let first = records.get(from);
    let mut marks = is_marker(first);
    let mut size = first.len() as u64 + 1;
    let count = records.len();
    'grow: for to in from + 1..count {
        let next = records.get(to);
        if ends_before(marks, size, next.len()) {
            return to - from;
        }
        marks = is_marker(next);
        size += next.len() as u64 + 1;
    }
    count - from
}

/// The places where the chunks of all records end: each is a number of records. It is one pass over their bytes.
pub fn cut_all(alloc: Global, records: &Records) -> Result<Vec<usize>, AllocError>
    ensures { IfOk result (λ v. v.items ≡ places 0 (chunks_of records.now)) }
{
    let mut ends = Vec::new(alloc);
    let mut from = 0;
    'cuts: while from < records.len() {
        from += first_cut(records, from);
        ends.push(from)?;
    }
    Ok(ends)
}
