//! The job that lists the documents of each word.
ghost use Rattle.std.specs.Prelude.{◌≡◌, ◌≤◌, ◌++◌, length, map, OnOk, OnErr};
ghost use Rattle.definitions.specs.Limits.{most_record};
ghost use Rattle.definitions.specs.Outside.{GainsPrefix};
ghost use Rattle.definitions.specs.Records.{words_of};
ghost use Rattle.job_laws.specs.Forms.{is_index_record};
ghost use Rattle.job_laws.specs.Gained.{GainsPairs};
ghost use Rattle.jobs_basic.specs.Index.{in_document, index_emits, index_joined, index_good, after_comma, behind_commas, with_commas, index_text, index_encoded};
ghost use Rattle.jobs_basic.specs.IndexLaws.{index_emits_good, index_join_laws, index_joined_comm};

use crate::Docs;
use crate::words::next_word;
use definitions::MOST_RECORD;
use itoa::Buffer;
use job_laws::{Emit, Job, Key, Meter, Swaps, be32_bytes, tab_at};
use record_text::parse_number;
use std::alloc::{AllocError, Global};
use std::marker::PhantomData;

/// In which documents each word occurs. A record is the document's number, a TAB and its text, which is the rest; words
/// are those of [`crate::Count`]. A list of documents strictly rises, and joining is the union, which is one pass over
/// both lists. The setting is 0.
#[derive(Drop)]
pub struct Index<M: Meter> {
    meter: PhantomData<M>,
}

impl<M: Meter> Index<M> {
    /// The job; it has no state.
    pub fn new() -> Index<M> {
        Index { meter: PhantomData }
    }
}

// Appends each word of the text in order, with the list of this document; out of memory, a prefix of them.
#[tactic(auto, using(job_laws::proofs::Gains::emitted_start, job_laws::proofs::Gains::emitted_more, job_laws::proofs::Gains::emitted_prefix, job_laws::proofs::Gains::emitted_end))]
fn index_words(alloc: Global, doc: u32, text: &[u8], out: &mut Emit<Docs>) -> Result<(), AllocError>
    requires { length text.now ≤ most_record }
    ensures ok { OnOk result (out.new ≡ out.old ++ map (in_document doc) (words_of text.now)) }
    ensures err { OnErr result (GainsPairs (map (in_document doc) (words_of text.now)) out.old out.new) }
{
    let mut rest = text;
    'words: while let Some((word, behind)) = next_word(rest) {
        let docs = match Docs::of(alloc, doc) {
            Ok(docs) => docs,
            Err(e) => return Err(e),
        };
        match out.put(word, docs) {
            Ok(()) => (),
            Err(e) => return Err(e),
        }
        rest = behind;
    }
    Ok(())
}

// Appends a comma and the number; out of memory, a prefix of them.
fn put_next(doc: u32, out: &mut Vec<u8>) -> Result<(), AllocError>
    ensures ok { OnOk result (out.new.items ≡ out.old.items ++ after_comma doc) }
    ensures err { OnErr result (GainsPrefix (after_comma doc) out.old.items out.new.items) }
{
    let mut number = Buffer::new();
    out.push(b',')?;
    out.extend_from_slice(number.format(doc).as_bytes())
}

// Appends each number after a comma; out of memory, a prefix of them.
fn put_behind(docs: &[u32], out: &mut Vec<u8>) -> Result<(), AllocError>
    ensures ok { OnOk result (out.new.items ≡ out.old.items ++ behind_commas docs.now) }
    ensures err { OnErr result (GainsPrefix (behind_commas docs.now) out.old.items out.new.items) }
{
    'docs: for doc in docs {
        match put_next(*doc, out) {
            Ok(()) => (),
            Err(e) => return Err(e),
        }
    }
    Ok(())
}

// Appends the numbers with commas between them; out of memory, a prefix of them.
fn put_docs(docs: &[u32], out: &mut Vec<u8>) -> Result<(), AllocError>
    ensures ok { OnOk result (out.new.items ≡ out.old.items ++ with_commas docs.now) }
    ensures err { OnErr result (GainsPrefix (with_commas docs.now) out.old.items out.new.items) }
{
    match docs {
        [] => Ok(()),
        [first, more @ ..] => {
            let mut number = Buffer::new();
            out.extend_from_slice(number.format(*first).as_bytes())?;
            match put_behind(more, out) {
                Ok(()) => Ok(()),
                Err(e) => Err(e),
            }
        }
    }
}

// Appends the line of a word with its documents; out of memory, a prefix of it.
fn put_line(word: &[u8], docs: &[u32], out: &mut Vec<u8>) -> Result<(), AllocError>
    ensures ok { OnOk result (out.new.items ≡ out.old.items ++ index_text word.now docs.now) }
    ensures err { OnErr result (GainsPrefix (index_text word.now docs.now) out.old.items out.new.items) }
{
    out.extend_from_slice(word)?;
    out.push(b'\t')?;
    match put_docs(docs, out) {
        Ok(()) => (),
        Err(e) => return Err(e),
    }
    out.push(b'\n')?;
    Ok(())
}

impl<M: Meter> Job for Index<M> {
    type Val = Docs;

    type Meter = M;

    ghost setting = { λ _. 0 };

    ghost accepts = { λ _ r. is_index_record r };

    ghost emits = { λ _ r. index_emits r };

    ghost joined = { λ _ a b. index_joined a b };

    ghost good = { λ _ ds. index_good ds };

    ghost text = { λ _ word ds. index_text word ds };

    ghost encoded = { λ ds. index_encoded ds };

    fn setting(&self) -> u32 {
        0
    }

    fn accepts(&self, r: &[u8]) -> bool {
        let at = tab_at(r);
        r.len() <= MOST_RECORD && at < r.len() && parse_number(&r[..at]).is_some()
    }

    fn map(
        &self,
        alloc: Global,
        r: &[u8],
        out: &mut Emit<Docs>,
        m: &mut M,
    ) -> Result<(), AllocError> {
        m.map();
        let at = tab_at(r);
        if let Some(doc) = parse_number(&r[..at]) {
            match index_words(alloc, doc, &r[at + 1..], out) {
                Ok(()) => (),
                Err(e) => return Err(e),
            }
        }
        Ok(())
    }

    fn combine(&self, alloc: Global, a: &Docs, b: &Docs, m: &mut M) -> Result<Docs, AllocError> {
        m.join();
        a.union(alloc, b)
    }

    fn line(&self, _alloc: Global, k: &Key, v: &Docs, out: &mut Vec<u8>) -> Result<(), AllocError> {
        put_line(k.bytes(), v.docs(), out)
    }

    fn copy(alloc: Global, v: &Docs) -> Result<Docs, AllocError> {
        v.copy(alloc)
    }

    fn same(a: &Docs, b: &Docs) -> bool {
        a.docs() == b.docs()
    }

    fn encode(v: &Docs, out: &mut Vec<u8>) -> Result<(), AllocError> {
        'docs: for doc in v.docs() {
            out.extend_from_slice(&be32_bytes(*doc))?;
        }
        Ok(())
    }

    ghost emits_good = { λ s r h. index_emits_good r h };

    ghost join_laws = { λ s. index_join_laws };
}

impl<M: Meter> Swaps for Index<M> {
    ghost joined_comm = { λ s a b g h. index_joined_comm a b };
}
