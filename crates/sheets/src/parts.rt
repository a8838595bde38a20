//! A table in parts.
ghost use Rattle.std.specs.Prelude.{◌≡◌, ◌<◌, ◌≤◌, ◌++◌, ◌∷◌, [], length, OnOk, IfOk};
ghost use Rattle.definitions.specs.Tables.{IsRising, HasGoodValues};
ghost use Rattle.partition.specs.Parts.{part_number};
ghost use Rattle.sheets.specs.Parts.{HasParts, AreSheets};

use crate::{Sheet, Table};
use job_laws::{Job, Key};
use partition::part_of;
use std::alloc::{AllocError, Global};
use std::marker::Model;

/// The entries of one part.
#[derive(Drop)]
struct PartEntries<V> {
    entries: Vec<(Key, V)>,
}

impl<V> Model for PartEntries<V> {
    ghost use Rattle.std.specs.Prelude.{List, ℕ};

    ghost Value = { List (List ℕ × V) };

    ghost view = { λ p. p.entries.items };
}

impl<V: Drop> PartEntries<V> {
    fn new(alloc: Global) -> PartEntries<V>
        ensures { result ≡ [] }
    {
        PartEntries {
            entries: Vec::new(alloc),
        }
    }

    fn push(&mut self, e: (Key, V)) -> Result<(), AllocError>
        ensures { OnOk result (self.new ≡ self.old ++ e ∷ []) }
    {
        self.entries.push(e)?;
        Ok(())
    }

    fn into_entries(self) -> Vec<(Key, V)>
        ensures { result.items ≡ self }
    {
        let PartEntries { entries } = self;
        entries
    }
}

/// The sheet of each part of a rising table. Entries are moved; it is linear in them.
pub(crate) fn sheets_of_parts<J: Job>(
    alloc: Global,
    setting: u32,
    entries: Vec<(Key, J::Val)>,
    parts: u32,
) -> Result<Vec<Sheet<J>>, AllocError>
    requires parts { 1 ≤ parts }
    requires rising { IsRising entries.items }
    requires good { HasGoodValues (J.good setting) entries.items }
    ensures { IfOk result (λ sheets. AreSheets setting parts entries.items sheets.items) }
{
    let lists = in_parts(alloc, entries, parts)?;
    let mut sheets = Vec::new(alloc);
    'lists: for list in lists {
        match Sheet::of(alloc, setting, Table::of(list.into_entries())) {
            Ok(sheet) => sheets.push(sheet)?,
            Err(e) => return Err(e),
        }
    }
    Ok(sheets)
}

/// The entries of each part, in their order.
fn in_parts<V: Drop>(
    alloc: Global,
    entries: Vec<(Key, V)>,
    parts: u32,
) -> Result<Vec<PartEntries<V>>, AllocError>
    requires { 1 ≤ parts }
    ensures { IfOk result (λ lists. HasParts parts entries.items lists.items) }
{
    let mut lists = no_entries(alloc, parts)?;
    'entries: for e in entries {
        let part = part_of(e.0.bytes(), parts);
        match lists[part as usize].push(e) {
            Ok(()) => (),
            Err(e) => return Err(e),
        }
    }
    Ok(lists)
}

fn no_entries<V: Drop>(alloc: Global, parts: u32) -> Result<Vec<PartEntries<V>>, AllocError>
    ensures { IfOk result (λ lists. HasParts parts [] lists.items) }
{
    let mut lists = Vec::new(alloc);
    'parts: for _ in 0..parts {
        lists.push(PartEntries::new(alloc))?;
    }
    Ok(lists)
}
