//! Cuts a stream of records into chunks as they come, by the rule of `marker_chunker`.
ghost use Rattle.std.specs.Prelude.{◌≡◌, ◌<◌, ◌≤◌, ◌+◌, ◌-◌, ◌++◌, ◌∷◌, [], ℕ, List, length, take, drop, IfOk, Option, true, false};
ghost use Rattle.std.specs.declared.option.Option.TheVariants.{Some};
ghost use Rattle.definitions.specs.Records.{IsRecord};
ghost use Rattle.marker_chunker.specs.Cuts.{joined, reach, chunks_of, AreChunks};
ghost use Rattle.chunk_store.specs.Cutting.{records_of, stops_at, closed};

use crate::chunk::Chunk;
use marker_chunker::{ends_before, is_marker};
use record_text::Records;
use std::alloc::{AllocError, Global};
use std::marker::Model;

/// Records that are being cut, modelled as the complete chunks and the records of the begun one. Each record is read
/// and copied once, when it is pushed.
#[derive(Drop)]
pub struct Cutter {
    done: Vec<Chunk>,
    begun: Records,
    marks: bool,
}

impl Model for Cutter {
    ghost use Rattle.std.specs.Prelude.{ℕ, List};
    ghost use Rattle.chunk_store.specs.Cutting.{Cutting, IsCutting};

    ghost Value = { Cutting };

    ghost view = { λ c. (c.done.items, c.begun) };

    ghost invariant = { λ c. IsCutting c.done.items c.begun c.marks };
}

impl Cutter {
    /// No records yet.
    pub fn new(alloc: Global) -> Cutter
        ensures { result ≡ ([], []) }
    {
        Cutter {
            done: Vec::new(alloc),
            begun: Records::new(alloc),
            marks: false,
        }
    }

    /// Whether there may be a boundary here, if this record follows.
    pub fn stops_before(&self, next: &[u8]) -> bool
        requires { IsRecord next.now }
        ensures stops { result ≡ stops_at self.now.1 (Some next.now) }
        ensures apart { result ≡ false → (rest : List (List ℕ)) (q : ℕ) → reach q (chunks_of (records_of self.now ++ next.now ∷ rest)) ≡ length (records_of self.now) → ⊥ }
    {
        self.begun.len() == 0 || ends_before(self.marks, self.begun.text_len(), next.len())
    }

    /// Adds a record.
    pub fn push(self, alloc: Global, r: &[u8]) -> Result<Cutter, AllocError>
        requires { IsRecord r.now }
        ensures { IfOk result (λ c. records_of c ≡ records_of self ++ r.now ∷ []) }
    {
        let stops = self.stops_before(r);
        let Cutter {
            done,
            mut begun,
            marks: _,
        } = self;
        if stops {
            let mut next = Records::new(alloc);
            next.push(r)?;
            let done = end_chunk(alloc, done, begun)?;
            return Ok(Cutter {
                done,
                begun: next,
                marks: is_marker(r),
            });
        }
        begun.push(r)?;
        Ok(Cutter {
            done,
            begun,
            marks: is_marker(r),
        })
    }

    /// The chunks, if the begun one ends here.
    pub fn finish(self, alloc: Global) -> Result<Vec<Chunk>, AllocError>
        ensures records { IfOk result (λ v. joined v.items ≡ records_of self) }
        ensures chunks { IfOk result (λ v. (next : Option (List ℕ)) → stops_at self.1 next ≡ true → AreChunks v.items next) }
    {
        let Cutter {
            done,
            begun,
            marks: _,
        } = self;
        let done = end_chunk(alloc, done, begun)?;
        Ok(done)
    }
}

fn end_chunk(alloc: Global, mut done: Vec<Chunk>, begun: Records) -> Result<Vec<Chunk>, AllocError>
    ensures { IfOk result (λ v. v.items ≡ closed done.items begun) }
{
    if begun.len() == 0 {
        return Ok(done);
    }
    let chunk = Chunk::of(alloc, begun)?;
    done.push(chunk)?;
    Ok(done)
}

/// Goes on with the records at these places.
pub fn feed(
    mut cutter: Cutter,
    alloc: Global,
    records: &Records,
    from: usize,
    to: usize,
) -> Result<Cutter, AllocError>
    requires { (from ≤ to) × (to ≤ length records.now) }
    ensures { IfOk result (λ c. records_of c ≡ records_of cutter ++ take (to - from) (drop from records.now)) }
{
    'feeding: for i in from..to {
        cutter = cutter.push(alloc, records.get(i))?;
    }
    Ok(cutter)
}
