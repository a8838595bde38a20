//! Partial results key by key, in byte order of the keys.
ghost use Rattle.std.specs.Prelude.{◌≡◌, ◌<◌, ◌++◌, ◌↔◌, length, IsTrue, IfSome, OnOk, OnErr, slice_get};
ghost use Rattle.definitions.specs.Answer.{lines_of};
ghost use Rattle.definitions.specs.Outside.{GainsPrefix};
ghost use Rattle.definitions.specs.Tables.{IsRising, HasGoodValues};
ghost use Rattle.job_laws.specs.Meanings.{meaning_of};

use job_laws::{Job, Key};
use std::alloc::{AllocError, Global};
use std::cmp::Ordering;
use std::marker::Model;

/// Entries of a key and a value, keys strictly rising bytewise.
#[derive(Drop)]
pub struct Table<J: Job> {
    entries: Vec<(Key, J::Val)>,
}

impl<J: Job> Model for Table<J> {
    ghost use Rattle.std.specs.Prelude.{ℕ, List};
    ghost use Rattle.definitions.specs.Tables.{IsRising};

    ghost Value = { List (List ℕ × J.Val) };

    ghost view = { λ t. t.entries.items };

    ghost invariant = { λ t. IsRising t.entries.items };
}

impl<J: Job> Table<J> {
    /// The table of rising entries.
    pub(crate) fn of(entries: Vec<(Key, J::Val)>) -> Table<J>
        requires { IsRising entries.items }
        ensures { result ≡ entries.items }
    {
        Table { entries }
    }

    /// The entries, as a slice.
    pub(crate) fn as_slice(&self) -> &[(Key, J::Val)]
        ensures value { result.now ≡ self.now }
        ensures rising { IsRising self.now }
    {
        self.entries.as_slice()
    }

    /// How many entries there are.
    pub fn len(&self) -> usize
        ensures count { result ≡ length self.now }
        ensures rising { IsRising self.now }
    {
        self.entries.len()
    }

    /// The key of an entry, by its place.
    pub fn key(&self, i: usize) -> &Key
        requires { i < length self.now }
        ensures { IfSome (slice_get self.now i) (λ e. result.now ≡ e.0) }
    {
        &self.entries[i].0
    }

    /// The value of an entry, by its place.
    pub fn val(&self, i: usize) -> &J::Val
        requires { i < length self.now }
        ensures { IfSome (slice_get self.now i) (λ e. result.now ≡ e.1) }
    {
        &self.entries[i].1
    }

    /// Appends the lines of the entries in order to `out`; out of memory, a prefix of them.
    pub(crate) fn write_lines(
        &self,
        alloc: Global,
        job: &J,
        out: &mut Vec<u8>,
    ) -> Result<(), AllocError>
        requires { HasGoodValues (J.good (J.setting job.now)) self.now }
        ensures ok { OnOk result (out.new.items ≡ out.old.items ++ lines_of (meaning_of J.Job job.now).text self.now) }
        ensures err { OnErr result (GainsPrefix (lines_of (meaning_of J.Job job.now).text self.now) out.old.items out.new.items) }
    {
        write_entries(alloc, job, self.entries.as_slice(), out)
    }

    /// Whether two tables are equal.
    pub(crate) fn same(&self, other: &Table<J>) -> bool
        ensures { IsTrue result ↔ (self.now ≡ other.now) }
    {
        same_entries::<J>(self.entries.as_slice(), other.entries.as_slice())
    }
}

fn write_entries<J: Job>(
    alloc: Global,
    job: &J,
    entries: &[(Key, J::Val)],
    out: &mut Vec<u8>,
) -> Result<(), AllocError>
    requires { HasGoodValues (J.good (J.setting job.now)) entries.now }
    ensures ok { OnOk result (out.new.items ≡ out.old.items ++ lines_of (meaning_of J.Job job.now).text entries.now) }
    ensures err { OnErr result (GainsPrefix (lines_of (meaning_of J.Job job.now).text entries.now) out.old.items out.new.items) }
{
    let mut rest = entries;
    'entries: while let [(key, val), more @ ..] = rest {
        match job.line(alloc, key, val, out) {
            Ok(()) => (),
            Err(e) => return Err(e),
        }
        rest = more;
    }
    Ok(())
}

fn same_entry<J: Job>(e: &(Key, J::Val), f: &(Key, J::Val)) -> bool
    ensures { IsTrue result ↔ (e.now ≡ f.now) }
{
    match e.0.compare(&f.0) {
        Ordering::Equal => J::same(&e.1, &f.1),
        _ => false,
    }
}

fn same_entries<J: Job>(a: &[(Key, J::Val)], b: &[(Key, J::Val)]) -> bool
    ensures { IsTrue result ↔ (a.now ≡ b.now) }
{
    let mut left = a;
    let mut right = b;
    'entries: loop {
        match (left, right) {
            ([], []) => return true,
            ([e, more @ ..], [f, others @ ..]) => {
                if !same_entry::<J>(e, f) {
                    return false;
                }
                left = more;
                right = others;
            }
            _ => return false,
        }
    }
}
