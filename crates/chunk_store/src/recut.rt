//! Cuts again around an edit, from the chunk of the record before it to the first old boundary that is still a
//! boundary.
ghost use Rattle.std.specs.Prelude.{◌≡◌, ◌<◌, ◌≤◌, ◌+◌, ◌++◌, ℕ, length, take, drop, IfOk, true};
ghost use Rattle.definitions.specs.Limits.{most_text};
ghost use Rattle.std.specs.declared.option.Option.TheVariants.{None};
ghost use Rattle.marker_chunker.specs.Cuts.{first_or, joined, reach, chunks_of, AreChunks};
ghost use Rattle.chunk_store.specs.Cutting.{records_of, stops_at};
ghost use Rattle.chunk_store.specs.Documents.{NoMeeting, IsRecut, spliced, text_size};

use crate::chunk::Chunk;
use crate::cutter::{Cutter, feed};
use crate::places::find;
use record_text::Records;
use std::alloc::{AllocError, Global};

/// A place among chunks, and what was cut before it.
#[derive(Drop)]
pub struct Reached {
    pub place: usize,
    pub cutter: Cutter,
}

/// Cuts the records before place `at` from the start of the chunk that holds the one before it.
pub fn head(alloc: Global, chunks: &[Chunk], at: usize) -> Result<Reached, AllocError>
    requires small { text_size chunks.now ≤ most_text }
    requires within { at ≤ length (joined chunks.now) }
    ensures within { IfOk result (λ r. r.place ≤ length chunks.now) }
    ensures records { IfOk result (λ r. joined (take r.place chunks.now) ++ records_of r.cutter ≡ take at (joined chunks.now)) }
    ensures begins { IfOk result (λ r. at ≡ 0 → r.place ≡ 0) }
    ensures holds { IfOk result (λ r. 0 < at → (reach r.place chunks.now < at) × (at ≤ reach (r.place + 1) chunks.now)) }
{
    let cutter = Cutter::new(alloc);
    if at == 0 {
        return Ok(Reached { place: 0, cutter });
    }
    let spot = find(chunks, at - 1);
    let chunk = chunks[spot.chunk].bundle().records();
    let cutter = feed(cutter, alloc, chunk, 0, at - spot.start)?;
    Ok(Reached {
        place: spot.chunk,
        cutter,
    })
}

/// Goes on from place `to` to the end of the chunk that holds it.
pub fn tail(
    cutter: Cutter,
    alloc: Global,
    chunks: &[Chunk],
    to: usize,
) -> Result<Reached, AllocError>
    requires small { text_size chunks.now ≤ most_text }
    requires within { to ≤ length (joined chunks.now) }
    requires chunks { AreChunks chunks.now None }
    ensures within { IfOk result (λ r. (r.place ≤ length chunks.now) × (to ≤ reach r.place chunks.now)) }
    ensures records { IfOk result (λ r. records_of r.cutter ++ joined (drop r.place chunks.now) ≡ records_of cutter ++ drop to (joined chunks.now)) }
    ensures before { IfOk result (λ r. (g : ℕ) → g < r.place → reach g chunks.now < to) }
{
    let spot = find(chunks, to);
    if spot.start == to {
        return Ok(Reached {
            place: spot.chunk,
            cutter,
        });
    }
    let chunk = chunks[spot.chunk].bundle().records();
    let cutter = feed(cutter, alloc, chunk, to - spot.start, chunk.len())?;
    Ok(Reached {
        place: spot.chunk + 1,
        cutter,
    })
}

/// Goes on over whole chunks from a place on, until a boundary meets one of theirs.
pub fn meet(
    mut cutter: Cutter,
    alloc: Global,
    chunks: &[Chunk],
    from: usize,
) -> Result<Reached, AllocError>
    requires within { from ≤ length chunks.now }
    requires chunks { AreChunks chunks.now None }
    ensures within { IfOk result (λ r. (from ≤ r.place) × (r.place ≤ length chunks.now)) }
    ensures records { IfOk result (λ r. records_of r.cutter ++ joined (drop r.place chunks.now) ≡ records_of cutter ++ joined (drop from chunks.now)) }
    ensures stops { IfOk result (λ r. stops_at r.cutter.1 (first_or None (joined (drop r.place chunks.now))) ≡ true) }
    ensures least { IfOk result (λ r. NoMeeting chunks.now from r.place (chunks_of (records_of cutter ++ joined (drop from chunks.now))) (length (records_of cutter))) }
{
    let mut place = from;
    'meeting: while place < chunks.len() {
        let chunk = chunks[place].bundle().records();
        if cutter.stops_before(chunk.get(0)) {
            return Ok(Reached { place, cutter });
        }
        cutter = feed(cutter, alloc, chunk, 0, chunk.len())?;
        place += 1;
    }
    Ok(Reached { place, cutter })
}

/// Fresh chunks for the old ones from `first` to `last`.
#[derive(Drop)]
pub struct Again {
    pub first: usize,
    pub last: usize,
    pub fresh: Vec<Chunk>,
}

/// Cuts again from the chunk that holds record `at - 1` to the first common boundary after the edit. It reads and
/// copies what the fresh chunks hold.
pub fn cut_again(
    alloc: Global,
    chunks: &[Chunk],
    at: usize,
    del: usize,
    ins: &Records,
) -> Result<Again, AllocError>
    requires small { text_size chunks.now ≤ most_text }
    requires within { at + del ≤ length (joined chunks.now) }
    requires chunks { AreChunks chunks.now None }
    ensures within { IfOk result (λ a. a.last ≤ length chunks.now) }
    ensures news { IfOk result (λ a. take a.first chunks.now ++ (a.fresh.items ++ drop a.last chunks.now) ≡ chunks_of (spliced at del ins.now (joined chunks.now))) }
    ensures recut { IfOk result (λ a. IsRecut at del ins.now chunks.now (take a.first chunks.now ++ (a.fresh.items ++ drop a.last chunks.now)) a.first a.last) }
{
    let begun = head(alloc, chunks, at)?;
    let first = begun.place;
    let with_ins = feed(begun.cutter, alloc, ins, 0, ins.len())?;
    let behind = tail(with_ins, alloc, chunks, at + del)?;
    let place = behind.place;
    let met = meet(behind.cutter, alloc, chunks, place)?;
    let last = met.place;
    let fresh = met.cutter.finish(alloc)?;
    Ok(Again { first, last, fresh })
}

/// Cuts all records.
pub fn cut_whole(alloc: Global, records: &Records) -> Result<Vec<Chunk>, AllocError>
    ensures { IfOk result (λ v. v.items ≡ chunks_of records.now) }
{
    let cutter = feed(Cutter::new(alloc), alloc, records, 0, records.len())?;
    let chunks = cutter.finish(alloc)?;
    Ok(chunks)
}
