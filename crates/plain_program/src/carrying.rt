//! What a command makes of a window.
ghost use Rattle.std.specs.Prelude.{◌≡◌, ◌≤◌, ◌<◌, ◌+◌, false, drop, length, IfOk, OnOk};
ghost use Rattle.chunk_store.specs.Documents.{spliced};
ghost use Rattle.chunk_store.specs.Files.{with_file};
ghost use Rattle.window_manager.specs.Windows.{asks_too_many, current_records, with_current, with_files, with_late, with_leaf, window_after};

use crate::files::{chunks_of_files, file_records, files_with};
use crate::records::{append_leaves, append_records, cut, spliced_records};
use crate::window::PlainWindow;
use record_text::{Command, Kind, Name, Records};
use std::alloc::{AllocError, Global};

impl PlainWindow {
    /// Carries out a command that asks for no more than there is.
    pub(crate) fn carry_out(&mut self, alloc: Global, c: &Command) -> Result<(), AllocError>
        requires { asks_too_many self.old c.now ≡ false }
        ensures { OnOk result (self.new ≡ window_after self.old c.now) }
    {
        match c {
            Command::Bucket(records) => self.add_leaf(alloc, records),
            Command::Drop(n) => self.keep_from(alloc, *n as usize),
            Command::Late { place, more } => self.add_late(alloc, *place as usize, more),
            Command::File { name } => self.select(alloc, name),
            Command::Remove { name } => self.put_file(alloc, name, Vec::new(alloc)),
            Command::Edit { at, del, ins } => self.edit(alloc, *at, *del, ins),
            Command::Load(records) => self.load(alloc, records),
            Command::Run => Ok(()),
        }
    }

    /// The records of the current file.
    pub(crate) fn current_records(&self, alloc: Global) -> Result<Records, AllocError>
        ensures { IfOk result (λ records. records ≡ current_records self.now) }
    {
        file_records(alloc, &self.files, &self.current)
    }

    /// Adds a leaf at the end; a circle keeps as many as it has places.
    fn add_leaf(&mut self, alloc: Global, records: &Records) -> Result<(), AllocError>
        ensures { OnOk result (self.new ≡ record self.old { leaves = with_leaf self.old.kind self.old.places self.old.leaves records.now }) }
    {
        let leaf = records.copy(alloc)?;
        self.leaves.push(leaf)?;
        match self.kind {
            Kind::Circle => {
                let gone = self.leaves.len().saturating_sub(self.places as usize);
                self.keep_from(alloc, gone)
            }
            Kind::Buckets | Kind::Growing | Kind::Document => Ok(()),
        }
    }

    /// Drops the first `gone` of the leaves.
    fn keep_from(&mut self, alloc: Global, gone: usize) -> Result<(), AllocError>
        requires { gone ≤ length self.old.leaves }
        ensures { OnOk result (self.new ≡ record self.old { leaves = drop gone self.old.leaves }) }
    {
        let mut kept = Vec::new(alloc);
        append_leaves(alloc, &mut kept, &self.leaves[gone..])?;
        self.leaves = kept;
        Ok(())
    }

    /// Adds records at the end of a leaf.
    fn add_late(&mut self, alloc: Global, place: usize, more: &Records) -> Result<(), AllocError>
        requires { place < length self.old.leaves }
        ensures { OnOk result (self.new ≡ record self.old { leaves = with_late place more.now self.old.leaves }) }
    {
        let mut leaf = self.leaves[place].copy(alloc)?;
        append_records(&mut leaf, more)?;
        self.leaves[place] = leaf;
        Ok(())
    }

    /// Chooses the current file.
    fn select(&mut self, alloc: Global, name: &Name) -> Result<(), AllocError>
        ensures { OnOk result (self.new ≡ record self.old { current = name.now }) }
    {
        self.current = name.copy(alloc)?;
        Ok(())
    }

    /// Replaces records of the current file.
    fn edit(&mut self, alloc: Global, at: u32, del: u32, ins: &Records) -> Result<(), AllocError>
        requires { at + del ≤ length (current_records self.old) }
        ensures { OnOk result (self.new ≡ with_current self.old (spliced at del ins.now (current_records self.old))) }
    {
        let old = self.current_records(alloc)?;
        let records = spliced_records(alloc, at, del, ins, &old)?;
        self.load(alloc, &records)
    }

    /// Replaces all records of the current file.
    fn load(&mut self, alloc: Global, records: &Records) -> Result<(), AllocError>
        ensures { OnOk result (self.new ≡ with_current self.old records.now) }
    {
        let chunks = cut(alloc, records)?;
        let name = self.current.copy(alloc)?;
        self.put_file(alloc, &name, chunks)
    }

    /// Gives the file with a name these chunks.
    fn put_file(
        &mut self,
        alloc: Global,
        name: &Name,
        chunks: Vec<Records>,
    ) -> Result<(), AllocError>
        ensures { OnOk result (self.new ≡ with_files self.old (with_file name.now chunks.items self.old.files)) }
    {
        self.files = files_with(alloc, &self.files, name, chunks)?;
        self.leaves = chunks_of_files(alloc, &self.files)?;
        Ok(())
    }
}
