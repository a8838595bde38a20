//! Finds the chunk of a record and the size of the text that an edit keeps, by the counts of the chunks alone.
ghost use Rattle.std.specs.Prelude.{◌≡◌, ◌<◌, ◌≤◌, ◌+◌, ℕ, List, length, take};
ghost use Rattle.definitions.specs.Limits.{most_text};
ghost use Rattle.definitions.specs.Records.{text_of};
ghost use Rattle.marker_chunker.specs.Cuts.{joined, reach};
ghost use Rattle.chunk_store.specs.Documents.{spliced, text_size};

use crate::chunk::Chunk;
use record_text::Records;

/// A chunk, and how many records and bytes of text come before it.
#[derive(Clone, Copy)]
pub struct Spot {
    pub chunk: usize,
    pub start: usize,
    pub text: u64,
}

/// The chunk that holds record `k`, or the number of chunks if none does. It is a walk over the counts of the chunks
/// before it.
pub fn find(chunks: &[Chunk], k: usize) -> Spot
    requires { text_size chunks.now ≤ most_text }
    ensures within { result.chunk ≤ length chunks.now }
    ensures start { result.start ≡ reach result.chunk chunks.now }
    ensures text { result.text ≡ text_size (take result.chunk chunks.now) }
    ensures holds { result.start ≤ k }
    ensures more { result.chunk < length chunks.now → k < reach (result.chunk + 1) chunks.now }
{
    let mut start = 0;
    let mut text = 0;
    'finding: for (i, chunk) in chunks.iter().enumerate() {
        let next = start + chunk.len();
        if k < next {
            return Spot {
                chunk: i,
                start,
                text,
            };
        }
        start = next;
        text += chunk.text_len();
    }
    Spot {
        chunk: chunks.len(),
        start,
        text,
    }
}

/// How many bytes of text the first `n` records have.
fn text_of_first(records: &Records, n: usize) -> u64
    requires { n ≤ length records.now }
    ensures { result ≡ length (text_of (take n records.now)) }
{
    let most = records.text_len();
    let mut size = 0;
    'sum: for i in 0..n {
        size += records.get(i).len() as u64 + 1;
    }
    size
}

/// How many bytes of text the records before place `k` have. It reads the lengths of records in one chunk only.
pub fn text_before(chunks: &[Chunk], k: usize) -> u64
    requires small { text_size chunks.now ≤ most_text }
    requires within { k ≤ length (joined chunks.now) }
    ensures { result ≡ length (text_of (take k (joined chunks.now))) }
{
    let spot = find(chunks, k);
    if spot.start == k {
        return spot.text;
    }
    spot.text + text_of_first(chunks[spot.chunk].bundle().records(), k - spot.start)
}

/// How many of `size` bytes of text stay if `del` records from place `at` on are removed.
pub fn text_kept(chunks: &[Chunk], size: u64, at: usize, del: usize) -> u64
    requires small { text_size chunks.now ≤ most_text }
    requires size { size ≡ text_size chunks.now }
    requires within { at + del ≤ length (joined chunks.now) }
    ensures most { result ≤ size }
    ensures spliced { (ins : List (List ℕ)) → length (text_of (spliced at del ins (joined chunks.now))) ≡ result + length (text_of ins) }
{
    let before = text_before(chunks, at);
    let gone = text_before(chunks, at + del);
    before + (size - gone)
}
