//! Lists of records. Each list is held as one text, so that it takes two pieces of memory however many records it has,
//! and is compared, copied and hashed as one text.
ghost use Rattle.std.specs.Prelude.{◌≡◌, ◌<◌, ◌≤◌, ◌++◌, ◌∷◌, [], ◌↔◌, length, IfOk, OnOk, OnErr, IsTrue, slice_index_or};
ghost use Rattle.definitions.specs.Records.{IsRecord, AllRecords, text_of};

use definitions::MOST_RECORD;
use std::alloc::{AllocError, Global};
use std::marker::Model;

/// Whether these bytes are a record: at most 65,535 bytes, none of them LF.
pub fn is_record(bytes: &[u8]) -> bool
    ensures { IsTrue result ↔ IsRecord bytes.now }
{
    bytes.len() <= MOST_RECORD && !bytes.contains(&b'\n')
}

/// Where the bytes of a record are in a text.
#[derive(Clone, Copy)]
struct Span {
    from: usize,
    to: usize,
}

/// A list of at most 4,294,967,295 records, modelled as a list of lists of bytes. It is held as the text of the
/// records, in one piece.
#[derive(Drop)]
pub struct Records {
    text: Vec<u8>,
    spans: Vec<Span>,
}

impl Model for Records {
    ghost use Rattle.std.specs.Prelude.{ℕ, List};
    ghost use Rattle.record_text.specs.Spans.{IsText, cuts};

    ghost Value = { List (List ℕ) };

    ghost view = { λ r. cuts r.text.items r.spans.items };

    ghost invariant = { λ r. IsText r.text.items r.spans.items };
}

impl Records {
    /// No records. It takes no memory.
    pub fn new(alloc: Global) -> Records
        ensures { result ≡ [] }
    {
        Records {
            text: Vec::new(alloc),
            spans: Vec::new(alloc),
        }
    }

    /// Adds a record at the end of the list, which must not be full. Its bytes, which must be a record, are copied. Out
    /// of memory, nothing changes.
    pub fn push(&mut self, bytes: &[u8]) -> Result<(), AllocError>
        requires record { IsRecord bytes.now }
        requires room { length self.old < 4294967295 }
        ensures ok { OnOk result (self.new ≡ self.old ++ bytes.now ∷ []) }
        ensures err { OnErr result (self.new ≡ self.old) }
    {
        let from = self.text.len();
        self.spans.reserve(1)?;
        self.text.reserve(bytes.len() + 1)?;
        match self.text.extend_from_slice(bytes) {
            Ok(()) => (),
            Err(_) => unreachable!(),
        }
        self.text.push_reserved(b'\n');
        self.spans.push_reserved(Span {
            from,
            to: from + bytes.len(),
        });
        Ok(())
    }

    /// How many records there are.
    pub fn len(&self) -> usize
        ensures count { result ≡ length self.now }
        ensures most { result ≤ 4294967295 }
        ensures records { AllRecords self.now }
    {
        self.spans.len()
    }

    /// Whether there are none.
    pub fn is_empty(&self) -> bool
        ensures { IsTrue result ↔ (self.now ≡ []) }
    {
        self.spans.is_empty()
    }

    /// The bytes of a record, by its place.
    pub fn get(&self, i: usize) -> &[u8]
        requires { i < length self.now }
        ensures value { result.now ≡ slice_index_or self.now i [] }
        ensures record { IsRecord result.now }
    {
        let Span { from, to } = self.spans[i];
        &self.text[from..to]
    }

    /// The text of the records: the bytes of each and one LF, end to end. Nothing is copied.
    pub fn text(&self) -> &[u8]
        ensures { result.now ≡ text_of self.now }
    {
        &self.text
    }

    /// How many bytes the text of the records has.
    pub fn text_len(&self) -> u64
        ensures { result ≡ length (text_of self.now) }
    {
        self.text.len() as u64
    }

    /// Whether the records are equal. It compares two texts.
    pub fn same(&self, other: &Records) -> bool
        ensures { IsTrue result ↔ (self.now ≡ other.now) }
    {
        self.text == other.text
    }

    /// A copy of the records, with memory of its own.
    pub fn copy(&self, alloc: Global) -> Result<Records, AllocError>
        ensures { IfOk result (λ copy. copy ≡ self.now) }
    {
        let text = self.text.to_vec(alloc)?;
        let spans = self.spans.to_vec(alloc)?;
        Ok(Records { text, spans })
    }
}
