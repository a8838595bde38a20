//! A document in files as a window: an edit changes the chunks around it, and what changed since the last run is one
//! splice of all chunks.
ghost use Rattle.std.specs.Prelude.{◌≡◌, ◌<◌, [], true, false, OnOk, OnErr, length, slice_index_or};
ghost use Rattle.record_text.specs.declared.kind.Kind.TheVariants as Kinds;
ghost use Rattle.record_text.specs.declared.command.Command.TheVariants.{Edit, File, Load, Remove};
ghost use Rattle.window_manager.specs.Windows.{asks_too_many, first_refused, has_command, is_large, is_one_too_many, record_refusal, refusal_of, window_after};
ghost use Rattle.window_manager.specs.Splices.{Carried, Edits, IsAfter, document_anew, early_refusal, fault_of, no_document};
ghost use Rattle.chunk_store.specs.Documents.{text_size};

use crate::WindowFault;
use crate::records::first_refused_of;
use crate::splice::splice_on;
use chunk_store::{EditFault, Files};
use definitions::MOST_FILES;
use job_laws::Job;
use record_text::{Bundle, Command, Name, Records, Shift};
use std::alloc::{AllocError, Global};
use std::marker::Model;

/// A document in files, modelled with how its chunks changed since the last run.
#[derive(Drop)]
pub struct DocumentWindow {
    places: u32,
    files: Files,
    stood: usize,
    shift: Shift,
}

impl Model for DocumentWindow {
    ghost use Rattle.record_text.specs.declared.kind.Kind.TheVariants as Kinds;
    ghost use Rattle.chunk_store.specs.Files.{all_chunks};
    ghost use Rattle.std.specs.Prelude.{length};
    ghost use Rattle.window_manager.specs.Splices.{DocumentView, FitsSplice};

    ghost Value = { DocumentView };

    ghost view = { λ d. record { window = record { kind = Kinds.Document; places = d.places; leaves = all_chunks d.files.0; files = d.files.0; current = d.files.1 }; stood = d.stood; splice = d.shift } };

    ghost invariant = { λ d. FitsSplice d.stood d.shift (length (all_chunks d.files.0)) };
}

/// The fault of the first record that is refused, with its index.
fn record_fault<J: Job>(job: &J, records: &Records) -> Option<WindowFault>
    ensures { result ≡ record_refusal (first_refused (J.accepts (J.setting job.now)) records.now) false }
{
    match first_refused_of(job, records) {
        Some(index) => Some(WindowFault::BadRecord {
            index: index as u32,
        }),
        None => None,
    }
}

/// The refusal of an edit or a load.
fn fault_of(fault: EditFault) -> WindowFault
    ensures { result ≡ fault_of fault }
{
    match fault {
        EditFault::TooMany => WindowFault::TooMany,
        EditFault::WindowLarge => WindowFault::WindowLarge,
        EditFault::Mem => WindowFault::Mem,
    }
}

impl DocumentWindow {
    /// No file, and the empty current name. It takes no memory.
    pub fn new(alloc: Global, places: u32) -> DocumentWindow
        ensures { result ≡ no_document places }
    {
        DocumentWindow {
            places,
            files: Files::new(alloc),
            stood: 0,
            shift: Shift::Splice {
                first: 0,
                gone: 0,
                fresh: 0,
            },
        }
    }

    /// How many chunks there are.
    pub fn leaf_count(&self) -> usize
        ensures { result ≡ length self.now.window.leaves }
    {
        self.files.chunk_count()
    }

    /// A chunk, by its place among those of all files.
    pub fn leaf(&self, i: usize) -> &Bundle
        requires { i < length self.now.window.leaves }
        ensures { result.now ≡ slice_index_or self.now.window.leaves i [] }
    {
        self.files.chunk(i)
    }

    /// How the chunks changed since the last run. It takes no memory.
    pub fn shift(&self) -> &Shift
        ensures { result.now ≡ self.now.splice }
    {
        &self.shift
    }

    /// Notes that a run was made over the present chunks.
    pub fn run_done(&mut self)
        ensures { self.new ≡ document_anew self.old }
    {
        self.stood = self.files.chunk_count();
        self.shift = Shift::Splice {
            first: 0,
            gone: 0,
            fresh: 0,
        };
    }

    /// Whether these records would make one file more than may have records.
    fn is_one_too_many(&self, records: &Records) -> bool
        ensures { result ≡ is_one_too_many self.now.window records.now }
    {
        self.files.record_count() == 0
            && !records.is_empty()
            && self.files.file_count() >= MOST_FILES
    }

    /// Chooses the current file.
    fn select(&mut self, alloc: Global, name: &Name) -> Result<(), AllocError>
        ensures ok { OnOk result (IsAfter self.old self.new (File name.now)) }
        ensures err { OnErr result (self.new ≡ self.old) }
    {
        self.files.select(alloc, name)
    }

    /// Removes a file.
    fn remove(&mut self, name: &Name)
        ensures { IsAfter self.old self.new (Remove name.now) }
    {
        let old = self.files.chunk_count();
        let change = self.files.remove(name);
        let new = self.files.chunk_count();
        splice_on(&mut self.shift, self.stood, old, new, change);
    }

    /// Replaces `del` records of the current file from a place on.
    fn edit(&mut self, alloc: Global, at: u32, del: u32, ins: Records) -> Result<(), WindowFault>
        requires { asks_too_many self.old.window (Edit at del ins) ≡ false }
        ensures ok { OnOk result (IsAfter self.old self.new (Edit at del ins)) }
        ensures err { OnErr result (self.new ≡ self.old) }
        ensures carried { Carried (is_large (window_after self.old.window (Edit at del ins))) result }
    {
        let old = self.files.chunk_count();
        let change = match self.files.edit(alloc, at, del, ins) {
            Ok(change) => change,
            Err(fault) => return Err(fault_of(fault)),
        };
        let new = self.files.chunk_count();
        splice_on(&mut self.shift, self.stood, old, new, change);
        Ok(())
    }

    /// Replaces all records of the current file.
    fn load(&mut self, alloc: Global, records: Records) -> Result<(), WindowFault>
        requires { asks_too_many self.old.window (Load records) ≡ false }
        ensures ok { OnOk result (IsAfter self.old self.new (Load records)) }
        ensures err { OnErr result (self.new ≡ self.old) }
        ensures carried { Carried (is_large (window_after self.old.window (Load records))) result }
    {
        let old = self.files.chunk_count();
        let change = match self.files.load(alloc, records) {
            Ok(change) => change,
            Err(fault) => return Err(fault_of(fault)),
        };
        let new = self.files.chunk_count();
        splice_on(&mut self.shift, self.stood, old, new, change);
        Ok(())
    }

    /// How many bytes of text there are.
    fn text_len(&self) -> u64
        ensures size { result ≡ text_size self.now.window.leaves }
        ensures small { is_large self.now.window ≡ false }
        ensures kind { self.now.window.kind ≡ Kinds.Document }
    {
        self.files.text_len()
    }

    /// Why an edit is refused, apart from the size of the text.
    fn edit_refusal<J: Job>(&self, at: u32, del: u32, ins: &Records, job: &J) -> Option<WindowFault>
        ensures { result ≡ early_refusal (J.accepts (J.setting job.now)) self.now.window (Edit at del ins.now) }
    {
        if at as usize + del as usize > self.files.record_count() || self.is_one_too_many(ins) {
            return Some(WindowFault::TooMany);
        }
        record_fault(job, ins)
    }

    /// Why a load is refused, apart from the size of the text.
    fn load_refusal<J: Job>(&self, records: &Records, job: &J) -> Option<WindowFault>
        ensures { result ≡ early_refusal (J.accepts (J.setting job.now)) self.now.window (Load records.now) }
    {
        let _ = &self.places;
        if self.is_one_too_many(records) {
            return Some(WindowFault::TooMany);
        }
        record_fault(job, records)
    }

    /// Why a command is refused, apart from the size of the text. It takes no memory.
    fn early_refusal<J: Job>(&self, c: &Command, job: &J) -> Option<WindowFault>
        ensures { result ≡ early_refusal (J.accepts (J.setting job.now)) self.now.window c.now }
    {
        let _ = &self.places;
        match c {
            Command::File { .. } | Command::Remove { .. } => None,
            Command::Edit { at, del, ins } => self.edit_refusal(*at, *del, ins, job),
            Command::Load(records) => self.load_refusal(records, job),
            Command::Bucket(_) | Command::Drop(_) | Command::Late { .. } | Command::Run => {
                Some(WindowFault::NotHere)
            }
        }
    }

    /// Carries out a command that is not refused early.
    fn carry_out(&mut self, alloc: Global, c: Command) -> Result<(), WindowFault>
        requires here { has_command self.old.window.kind c ≡ true }
        requires few { asks_too_many self.old.window c ≡ false }
        ensures ok { OnOk result (IsAfter self.old self.new c) }
        ensures err { OnErr result (self.new ≡ self.old) }
        ensures carried { Carried (is_large (window_after self.old.window c)) result }
    {
        let _ = self.text_len();
        match c {
            Command::File { name } => match self.select(alloc, &name) {
                Ok(()) => Ok(()),
                Err(_) => Err(WindowFault::Mem),
            },
            Command::Remove { name } => {
                self.remove(&name);
                let _ = self.text_len();
                Ok(())
            }
            Command::Edit { at, del, ins } => self.edit(alloc, at, del, ins),
            Command::Load(records) => self.load(alloc, records),
            _other => unreachable!(),
        }
    }

    /// Carries out a command, or returns why it is refused. An edit costs the chunks that it touches, a load the text
    /// of the file. On an error nothing changes.
    pub fn apply<J: Job>(&mut self, alloc: Global, c: Command, job: &J) -> Result<(), WindowFault>
        ensures { Edits (refusal_of (J.accepts (J.setting job.now)) self.old.window c) self.old self.new c result }
    {
        if let Some(fault) = self.early_refusal(&c, job) {
            return Err(fault);
        }
        self.carry_out(alloc, c)
    }
}
