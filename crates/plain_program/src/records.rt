//! Lists of records, joined and cut.
ghost use Rattle.std.specs.Prelude.{◌≡◌, ◌≤◌, ◌+◌, ◌-◌, ◌++◌, take, drop, length, IfOk, OnOk};
ghost use Rattle.marker_chunker.specs.Cuts.{chunks_of, joined};
ghost use Rattle.chunk_store.specs.Documents.{spliced};

use marker_chunker::first_cut;
use record_text::Records;
use std::alloc::{AllocError, Global};

/// How many records a list may have.
const MOST_RECORDS: usize = 4_294_967_295;

/// Appends the records of a list from one place up to another. A full list is reported as out of memory.
pub(crate) fn append_part(
    into: &mut Records,
    records: &Records,
    from: usize,
    to: usize,
) -> Result<(), AllocError>
    requires { (from ≤ to) × (to ≤ length records.now) }
    ensures { OnOk result (into.new ≡ into.old ++ take (to - from) (drop from records.now)) }
{
    'records: for i in from..to {
        if into.len() == MOST_RECORDS {
            return Err(AllocError);
        }
        match into.push(records.get(i)) {
            Ok(()) => (),
            Err(e) => return Err(e),
        }
    }
    Ok(())
}

/// Appends records. A full list is reported as out of memory.
pub(crate) fn append_records(into: &mut Records, records: &Records) -> Result<(), AllocError>
    ensures { OnOk result (into.new ≡ into.old ++ records.now) }
{
    append_part(into, records, 0, records.len())
}

/// Appends lists of records, each with memory of its own.
pub(crate) fn append_leaves(
    alloc: Global,
    into: &mut Vec<Records>,
    leaves: &[Records],
) -> Result<(), AllocError>
    ensures { OnOk result (into.new.items ≡ into.old.items ++ leaves.now) }
{
    let mut rest = leaves;
    'leaves: while let [leaf, more @ ..] = rest {
        let leaf = match leaf.copy(alloc) {
            Ok(leaf) => leaf,
            Err(e) => return Err(e),
        };
        match into.push(leaf) {
            Ok(()) => (),
            Err(_) => return Err(AllocError),
        }
        rest = more;
    }
    Ok(())
}

/// The records of leaves, end to end.
pub(crate) fn joined_leaves(alloc: Global, leaves: &[Records]) -> Result<Records, AllocError>
    ensures { IfOk result (λ records. records ≡ joined leaves.now) }
{
    let mut records = Records::new(alloc);
    let mut rest = leaves;
    'leaves: while let [leaf, more @ ..] = rest {
        match append_records(&mut records, leaf) {
            Ok(()) => (),
            Err(e) => return Err(e),
        }
        rest = more;
    }
    Ok(records)
}

/// The records with `del` of them from place `at` on replaced.
pub(crate) fn spliced_records(
    alloc: Global,
    at: u32,
    del: u32,
    ins: &Records,
    records: &Records,
) -> Result<Records, AllocError>
    requires { at + del ≤ length records.now }
    ensures { IfOk result (λ all. all ≡ spliced at del ins.now records.now) }
{
    let at = at as usize;
    let mut all = Records::new(alloc);
    append_part(&mut all, records, 0, at)?;
    append_records(&mut all, ins)?;
    append_part(&mut all, records, at + del as usize, records.len())?;
    Ok(all)
}

/// The chunks of records, cut from nothing.
pub(crate) fn cut(alloc: Global, records: &Records) -> Result<Vec<Records>, AllocError>
    ensures { IfOk result (λ chunks. chunks.items ≡ chunks_of records.now) }
{
    let mut chunks = Vec::new(alloc);
    let mut from = 0;
    'chunks: while from < records.len() {
        let to = from + first_cut(records, from);
        let mut chunk = Records::new(alloc);
        match append_part(&mut chunk, records, from, to) {
            Ok(()) => (),
            Err(e) => return Err(e),
        }
        match chunks.push(chunk) {
            Ok(()) => (),
            Err(_) => return Err(AllocError),
        }
        from = to;
    }
    Ok(chunks)
}
