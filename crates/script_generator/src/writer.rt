//! Writes a script piece by piece.
ghost use Rattle.std.specs.Prelude.{◌≡◌, ◌<◌, decimal, OnOk};
ghost use Rattle.script_generator.specs.Generated.{blank, with_bytes, with_drawn, with_field, with_words, with_fields, with_record, times};

use crate::Draws;
use itoa::Buffer;
use program_words::JobName;
use std::alloc::{AllocError, Global};
use std::marker::Model;

/// The script written so far, the draws that follow, and the number of its records. After an `Err` it has some prefix
/// of a piece, and must not be used.
#[derive(Drop)]
pub(crate) struct Writer {
    text: Vec<u8>,
    draws: Draws,
    records: u64,
}

impl Model for Writer {
    ghost use Rattle.std.specs.Prelude.{◌≤◌, length};
    ghost use Rattle.script_generator.specs.Generated.{Draft};

    ghost Value = { Draft };

    ghost view = { λ w. record { text = w.text.items; state = w.draws; records = w.records } };

    ghost invariant = { λ w. w.records ≤ length w.text.items };
}

impl Writer {
    /// A writer without a script yet. It takes no memory.
    pub(crate) fn new(alloc: Global, seed: u32) -> Writer
        ensures { result ≡ blank seed }
    {
        Writer {
            text: Vec::new(alloc),
            draws: Draws::new(u64::from(seed) + 1),
            records: 0,
        }
    }

    /// The script.
    pub(crate) fn into_text(self) -> Vec<u8>
        ensures { result.items ≡ self.text }
    {
        self.text
    }

    /// Writes bytes.
    pub(crate) fn bytes(&mut self, bytes: &[u8]) -> Result<(), AllocError>
        ensures { OnOk result (self.new ≡ with_bytes bytes.now self.old) }
    {
        self.text.extend_from_slice(bytes)
    }

    /// Writes the number of records written so far.
    fn number_of_record(&mut self) -> Result<(), AllocError>
        ensures { OnOk result (self.new ≡ with_bytes (decimal self.old.records) self.old) }
    {
        self.text
            .extend_from_slice(Buffer::new().format(self.records).as_bytes())
    }

    /// Draws a number below `limit`, and writes it.
    fn drawn(&mut self, limit: u64) -> Result<(), AllocError>
        requires { 0 < limit }
        ensures { OnOk result (self.new ≡ with_drawn limit self.old) }
    {
        let number = self.draws.draw(limit);
        self.text
            .extend_from_slice(Buffer::new().format(number).as_bytes())
    }

    /// Writes bytes and a drawn number after them.
    #[tactic(auto, unfolding(crate::specs::Generated::with_field))]
    pub(crate) fn field(&mut self, prefix: &[u8], limit: u64) -> Result<(), AllocError>
        requires { 0 < limit }
        ensures { OnOk result (self.new ≡ with_field prefix.now limit self.old) }
    {
        self.bytes(prefix)?;
        self.drawn(limit)
    }

    /// Writes eight words.
    #[tactic(auto, using(crate::proofs::Steps::times_none, crate::proofs::Steps::times_more), unfolding(crate::specs::Generated::with_words))]
    fn words(&mut self) -> Result<(), AllocError>
        ensures { OnOk result (self.new ≡ with_words self.old) }
    {
        self.field(b"w", 5000)?;
        'words: for _more in 0..7u32 {
            self.field(b" w", 5000)?;
        }
        Ok(())
    }

    /// Writes the fields of a record.
    #[tactic(auto, unfolding(crate::specs::Generated::with_fields))]
    fn fields(&mut self, job: JobName) -> Result<(), AllocError>
        ensures { OnOk result (self.new ≡ with_fields job self.old) }
    {
        match job {
            JobName::Count => self.words(),
            JobName::Index => {
                self.number_of_record()?;
                self.bytes(b"\t")?;
                self.words()
            }
            JobName::Latest => {
                self.field(b"k", 2000)?;
                self.field(b"\tv", 1000000)
            }
            JobName::TopK => {
                self.field(b"g", 50)?;
                self.field(b"\t", 100000)?;
                self.field(b"\ti", 2000)
            }
        }
    }

    /// Writes a record and its LF.
    #[tactic(auto, unfolding(crate::specs::Generated::with_record))]
    fn record(&mut self, job: JobName) -> Result<(), AllocError>
        ensures { OnOk result (self.new ≡ with_record job self.old) }
    {
        self.fields(job)?;
        self.text.push(b'\n')?;
        self.records += 1;
        Ok(())
    }

    /// Writes records in a row.
    #[tactic(auto, using(crate::proofs::Steps::times_none, crate::proofs::Steps::times_more))]
    pub(crate) fn records(&mut self, job: JobName, count: u32) -> Result<(), AllocError>
        ensures { OnOk result (self.new ≡ times count (with_record job) self.old) }
    {
        'records: for _written in 0..count {
            self.record(job)?;
        }
        Ok(())
    }
}
