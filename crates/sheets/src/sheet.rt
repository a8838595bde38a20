//! A shared table with its digest: the result of mapping and merging, and the value that a memo keeps.
ghost use Rattle.std.specs.Prelude.{◌≡◌, ◌++◌, [], ◌↔◌, ◌^◌, ◌<◌, IsTrue, IfOk, OnOk, OnErr};
ghost use Rattle.definitions.specs.Answer.{lines_of};
ghost use Rattle.definitions.specs.Outside.{GainsPrefix};
ghost use Rattle.definitions.specs.Tables.{IsRising, HasGoodValues};
ghost use Rattle.job_laws.specs.Meanings.{meaning_of};
ghost use Rattle.sheets.specs.Digests.{table_digest};

use crate::Table;
use crate::digest::digest_of;
use job_laws::Job;
use std::alloc::{AllocError, Global};
use std::marker::Model;
use std::sync::Arc;

/// A shared table with its digest and the number that its job is set to. Its values are good at this setting, and it
/// never changes.
#[derive(Drop)]
pub struct Sheet<J: Job> {
    table: Arc<Table<J>, Global>,
    setting: u32,
    digest: [u8; 32],
}

impl<J: Job> Model for Sheet<J> {
    ghost use Rattle.std.specs.Arc.{arc_value};
    ghost use Rattle.definitions.specs.Tables.{IsRising, HasGoodValues};
    ghost use Rattle.std.specs.Prelude.{◌≡◌};
    ghost use Rattle.sheets.specs.Sheets.{SheetOf};
    ghost use Rattle.sheets.specs.Digests.{table_digest};

    ghost Value = { SheetOf J.Val };

    ghost view = { λ s. record { setting = s.setting; entries = arc_value s.table } };

    ghost invariant = { λ s. IsRising (arc_value s.table) × HasGoodValues (J.good s.setting) (arc_value s.table) × (s.digest ≡ table_digest J.encoded (arc_value s.table)) };
}

impl<J: Job> Sheet<J> {
    /// A sheet without entries.
    pub fn empty(alloc: Global, setting: u32) -> Result<Sheet<J>, AllocError>
        ensures setting { IfOk result (λ s. s.setting ≡ setting) }
        ensures entries { IfOk result (λ s. s.entries ≡ []) }
    {
        Sheet::of(alloc, setting, Table::of(Vec::new(alloc)))
    }

    /// The sheet of this table, which is hashed once.
    pub(crate) fn of(alloc: Global, setting: u32, table: Table<J>) -> Result<Sheet<J>, AllocError>
        requires { HasGoodValues (J.good setting) table }
        ensures setting { IfOk result (λ s. s.setting ≡ setting) }
        ensures entries { IfOk result (λ s. s.entries ≡ table) }
    {
        let digest = digest_of::<J>(alloc, table.as_slice())?;
        let table = Arc::new(alloc, table)?;
        Ok(Sheet {
            table,
            setting,
            digest,
        })
    }

    /// Another owner of the same sheet. Nothing is copied; it fails only if the count of owners is full.
    pub fn share(&self) -> Result<Sheet<J>, AllocError>
        ensures same { IfOk result (λ s. s ≡ self.now) }
        ensures rising { IsRising self.now.entries }
        ensures good { HasGoodValues (J.good self.now.setting) self.now.entries }
    {
        let table = Arc::try_clone(&self.table)?;
        Ok(Sheet {
            table,
            setting: self.setting,
            digest: self.digest,
        })
    }

    /// The number that the sheet's job is set to.
    pub fn setting(&self) -> u32
        ensures { result ≡ self.now.setting }
    {
        self.setting
    }

    /// The digest of the table: SHA-256 over its entries in order, each as the length of its key in 8 bytes, the key, the
    /// length of its value's encoding in 8 bytes, and that encoding. It was made with the sheet and takes no memory.
    pub fn digest(&self) -> [u8; 32]
        ensures { result ≡ table_digest J.encoded self.now.entries }
    {
        self.digest
    }

    /// The table. It takes no memory.
    pub fn entries(&self) -> &Table<J>
        ensures value { result.now ≡ self.now.entries }
        ensures rising { IsRising self.now.entries }
        ensures good { HasGoodValues (J.good self.now.setting) self.now.entries }
    {
        &self.table
    }

    /// Appends the lines of the entries in order to `out`; out of memory, a prefix of them.
    pub fn write_lines(&self, alloc: Global, job: &J, out: &mut Vec<u8>) -> Result<(), AllocError>
        requires { self.now.setting ≡ J.setting job.now }
        ensures ok { OnOk result (out.new.items ≡ out.old.items ++ lines_of (meaning_of J.Job job.now).text self.now.entries) }
        ensures err { OnErr result (GainsPrefix (lines_of (meaning_of J.Job job.now).text self.now.entries) out.old.items out.new.items) }
    {
        self.entries().write_lines(alloc, job, out)
    }
}

/// Whether two sheets have equal settings and equal tables. If settings and digests are equal, it compares whole
/// tables. It takes no memory.
pub fn same_sheet<J: Job>(a: &Sheet<J>, b: &Sheet<J>) -> bool
    ensures { IsTrue result ↔ (a.now ≡ b.now) }
{
    a.setting == b.setting && a.digest == b.digest && a.entries().same(b.entries())
}
